//! Times the lookups of the structures over bytes: `bits N`, `numbers N`, `texts N`, `sequence N`, `plane N`, `triples N`. It prints
//! nanoseconds for each lookup, at places drawn at random. `iris N` and `text N` read lines, write the part file of their triples and
//! load it. `file N NAME` and `long N NAME` write such a file, the second of long names that share their fronts, and `load NAME` loads
//! any bytes. `chains N` times a base and N children, `base N` makes a base of new lines, and `lines N` prints these.
//! Any other words print what there is to time.
#![tactic(auto)]

mod chains;
mod draw;
mod files;
mod parts;
mod planes;
mod premises;

ghost use Rattle.std.specs.Prelude.{◌≡◌, ◌≤◌, All, IfOk};
ghost use Rattle.std.specs.Cmp.Lexicographic.{slice_cmp};
ghost use Rattle.std.specs.Ordering.{is_lt, nat_cmp};

use crate::chains::{print_lines, time_base, time_chains};
use crate::draw::{LOOKUPS, draw, draw_below, tell};
use crate::files::{load_file, write_file};
use crate::parts::{Lines, time_part};
use crate::planes::{drawn_triples, spread_triples, time_plane};
use std::alloc::{AllocError, Global};
use std::env;
use std::rt::{Clock, Env};
use std::time::Instant;
use ts_bits::{BitBuilder, BitView};
use ts_front::{FrontBuilder, FrontView};
use ts_log::{LogBuilder, LogView};
use ts_wavelet::{WaveletView, write_wavelet};

/// What is to be timed, and over how many elements.
enum Task {
    Bits(u64),
    Numbers(u64),
    Texts(u64),
    Sequence(u64),
    Plane(u64),
    Triples(u64),
    Part(Lines, u64),
    File(Lines, u64, String),
    Load(String),
    Chains(u64),
    Base(u64),
    Print(u64),
    Nothing,
}

fn main(rt: HostRuntime) -> anyhow::Result<()> {
    match read_task(&rt)? {
        Task::Bits(count) => time_bits(&rt, rt.alloc(), count),
        Task::Numbers(count) => time_numbers(&rt, rt.alloc(), count),
        Task::Texts(count) => time_texts(&rt, rt.alloc(), count),
        Task::Sequence(count) => time_sequence(&rt, rt.alloc(), count),
        Task::Plane(count) => time_plane(&rt, rt.alloc(), &spread_triples(rt.alloc(), count)?),
        Task::Triples(count) => time_plane(&rt, rt.alloc(), &drawn_triples(rt.alloc(), count)?),
        Task::Part(lines, count) => time_part(&rt, lines, count),
        Task::File(lines, count, name) => write_file(&rt, lines, count, &name),
        Task::Load(name) => load_file(&rt, &name),
        Task::Chains(children) => time_chains(&rt, children),
        Task::Base(count) => time_base(&rt, count),
        Task::Print(count) => print_lines(&rt, count),
        Task::Nothing => {
            println!(rt;
                "bits N, numbers N, texts N, sequence N, plane N, triples N, iris N, text N, file N NAME, long N NAME, load NAME, chains N, base N, lines N"
            )?;
            Ok(())
        }
    }
}

fn read_task(rt: &(impl Env + AllocGlobal)) -> anyhow::Result<Task> {
    let mut words = env::args(rt)?;
    let _program = words.next();
    let (Some(kind), Some(count)) = (words.next(), words.next()) else {
        return Ok(Task::Nothing);
    };
    if kind.as_str() == "load" {
        return Ok(Task::Load(count));
    }
    let Ok(count) = count.as_str().parse() else {
        return Ok(Task::Nothing);
    };
    if let Some(name) = words.next() {
        return Ok(file_task(kind.as_str(), count, name));
    }
    Ok(match kind.as_str() {
        "bits" => Task::Bits(count),
        "numbers" => Task::Numbers(count),
        "texts" => Task::Texts(count),
        "sequence" => Task::Sequence(count),
        "plane" => Task::Plane(count),
        "triples" => Task::Triples(count),
        "iris" => Task::Part(Lines::Iris, count),
        "text" => Task::Part(Lines::Text, count),
        "chains" => Task::Chains(count),
        "base" => Task::Base(count),
        "lines" => Task::Print(count),
        _ => Task::Nothing,
    })
}

/// The file that is to be written under a name.
fn file_task(kind: &str, count: u64, name: String) -> Task {
    match kind {
        "file" => Task::File(Lines::Iris, count, name),
        "long" => Task::File(Lines::Long, count, name),
        _ => Task::Nothing,
    }
}

fn time_bits(rt: &(impl Print + Clock), alloc: Global, count: u64) -> anyhow::Result<()> {
    let mut builder = BitBuilder::new(alloc);
    let mut x = 1;
    for _ in 0..count {
        builder.push(draw(&mut x) % 3 == 0)?;
    }
    let mut bytes = Vec::new(alloc);
    builder.finish(&mut bytes)?;
    if let Some(view) = BitView::open(&bytes) {
        time_rank(rt, &view)?;
        time_select(rt, &view)?;
    }
    Ok(())
}

fn time_rank(rt: &(impl Print + Clock), view: &BitView<'_>) -> anyhow::Result<()> {
    let len = view.len();
    if len == 0 {
        return Ok(());
    }
    let (mut x, mut seen) = (1, 0);
    let start = Instant::now(rt)?;
    for _ in 0..LOOKUPS {
        seen ^= view.rank1(draw_below(&mut x, len));
    }
    tell(rt, "rank1", start, seen)
}

fn time_select(rt: &(impl Print + Clock), view: &BitView<'_>) -> anyhow::Result<()> {
    let ones = view.rank1(view.len());
    if ones == 0 {
        return Ok(());
    }
    let (mut x, mut seen) = (1, 0);
    let start = Instant::now(rt)?;
    for _ in 0..LOOKUPS {
        seen ^= view.select1(draw_below(&mut x, ones)).unwrap_or(0);
    }
    tell(rt, "select1", start, seen)
}

fn time_numbers(rt: &(impl Print + Clock), alloc: Global, count: u64) -> anyhow::Result<()> {
    let mut builder = LogBuilder::new(alloc);
    for number in 0..count {
        builder.push(number)?;
    }
    let mut bytes = Vec::new(alloc);
    builder.finish(&mut bytes)?;
    if let Some(view) = LogView::open(&bytes) {
        time_get(rt, &view)?;
    }
    Ok(())
}

fn time_get(rt: &(impl Print + Clock), view: &LogView<'_>) -> anyhow::Result<()> {
    let len = view.len();
    if len == 0 {
        return Ok(());
    }
    let (mut x, mut seen) = (1, 0);
    let start = Instant::now(rt)?;
    for _ in 0..LOOKUPS {
        seen ^= view.get(draw_below(&mut x, len));
    }
    tell(rt, "get", start, seen)
}

/// A number in 8 lower-case hexadecimal digits.
fn digits_of(number: u64) -> [u8; 8] {
    let mut digits = [b'0'; 8];
    let mut rest = number;
    for digit in digits.iter_mut().rev() {
        *digit = b"0123456789abcdef"[(rest % 16) as usize];
        rest /= 16;
    }
    digits
}

/// Whether a text is below another.
fn is_below(text: &[u8], other: &[u8]) -> bool
    ensures { result ≡ is_lt (slice_cmp nat_cmp text.now other.now) }
{
    text.cmp(other).is_lt()
}

/// The dictionary of the numbers below a bound, at most 2^32, in 8 digits, as its two sections. That the numbers
/// rise in digits is seen of each before it is pushed.
fn dictionary(alloc: Global, count: u64) -> Result<(Vec<u8>, Vec<u8>), AllocError> {
    let mut builder = FrontBuilder::new(alloc);
    let mut last = [0; 8];
    for number in 0..count {
        let entry = digits_of(number);
        if !is_below(&last, &entry) {
            return Err(AllocError);
        }
        builder.push(&entry)?;
        last = entry;
    }
    let mut starts = Vec::new(alloc);
    let mut bytes = Vec::new(alloc);
    builder.finish(&mut starts, &mut bytes)?;
    Ok((starts, bytes))
}

fn time_texts(rt: &(impl Print + Clock), alloc: Global, count: u64) -> anyhow::Result<()> {
    let (starts, bytes) = dictionary(alloc, count)?;
    let start = Instant::now(rt)?;
    let opened = FrontView::open(&starts, &bytes);
    let nanos = start.elapsed(rt)?.as_nanos();
    if let (Some(view), Some(each)) = (opened, nanos.checked_div(u128::from(count))) {
        println!(rt; "open {each} ns a text")?;
        time_find(rt, &view)?;
    }
    Ok(())
}

fn time_find(rt: &(impl Print + Clock), view: &FrontView<'_>) -> anyhow::Result<()> {
    let len = view.len();
    if len == 0 {
        return Ok(());
    }
    let (mut x, mut seen) = (1, 0);
    let start = Instant::now(rt)?;
    for _ in 0..LOOKUPS {
        seen ^= view.find(&digits_of(draw_below(&mut x, len))).unwrap_or(0);
    }
    tell(rt, "find", start, seen)
}

/// Numbers from 1 to 511, drawn at random.
fn sequence(alloc: Global, count: u64) -> Result<Vec<u64>, AllocError>
    ensures { IfOk result (λ numbers. All (λ x. 1 ≤ x) numbers.items) }
{
    let mut numbers = Vec::new(alloc);
    let mut x = 1;
    for _ in 0..count {
        numbers.push(1 + draw(&mut x) % 511)?;
    }
    Ok(numbers)
}

fn time_sequence(rt: &(impl Print + Clock), alloc: Global, count: u64) -> anyhow::Result<()> {
    let numbers = sequence(alloc, count)?;
    let mut bytes = Vec::new(alloc);
    write_wavelet(alloc, &numbers, &mut bytes)?;
    if let Some(view) = WaveletView::open(&bytes, numbers.len() as u64) {
        time_at(rt, &view)?;
        time_occurrences(rt, &view)?;
        time_place(rt, &view)?;
        time_places(rt, &view)?;
    }
    Ok(())
}

fn time_at(rt: &(impl Print + Clock), view: &WaveletView<'_>) -> anyhow::Result<()> {
    let len = view.len();
    if len == 0 {
        return Ok(());
    }
    let (mut x, mut seen) = (1, 0);
    let start = Instant::now(rt)?;
    for _ in 0..LOOKUPS {
        seen ^= view.at(draw_below(&mut x, len));
    }
    tell(rt, "at", start, seen)
}

fn time_occurrences(rt: &(impl Print + Clock), view: &WaveletView<'_>) -> anyhow::Result<()> {
    let len = view.len();
    if len == 0 {
        return Ok(());
    }
    let (mut x, mut seen) = (1, 0);
    let start = Instant::now(rt)?;
    for _ in 0..LOOKUPS {
        let p = 1 + draw(&mut x) % 511;
        seen ^= view.rank(p, draw_below(&mut x, len));
    }
    tell(rt, "rank", start, seen)
}

fn time_place(rt: &(impl Print + Clock), view: &WaveletView<'_>) -> anyhow::Result<()> {
    let fewest = view.len() / 1024;
    if fewest == 0 {
        return Ok(());
    }
    let (mut x, mut seen) = (1, 0);
    let start = Instant::now(rt)?;
    for _ in 0..LOOKUPS {
        let p = 1 + draw(&mut x) % 511;
        seen ^= view.select(p, draw_below(&mut x, fewest)).unwrap_or(0);
    }
    tell(rt, "select", start, seen)
}

/// All places of all numbers: as many steps as there are numbers.
fn time_places(rt: &(impl Print + Clock), view: &WaveletView<'_>) -> anyhow::Result<()> {
    let mut seen = 0;
    let start = Instant::now(rt)?;
    for p in 1..512 {
        for found in view.places(p) {
            seen ^= found;
        }
    }
    let nanos = start.elapsed(rt)?.as_nanos() / u128::from(view.len().max(1));
    println!(rt; "places {nanos} ns ({seen:x})")?;
    Ok(())
}
