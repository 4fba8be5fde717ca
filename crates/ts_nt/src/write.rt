ghost use Rattle.std.specs.Prelude.{◌≡◌, OnOk, OnErr, ℕ, List, [], ◌∷◌, ◌++◌};
ghost use Rattle.ts_model.specs.declared.signed.Sign.TheVariants.{Add};
ghost use Rattle.ts_model.specs.TextTriple.{TextTriple, IsTriple};
ghost use Rattle.ts_nt.specs.LineRead.{IsReadAs};
ghost use Rattle.ts_nt.specs.TripleLine.{triple_line, Extends};

use std::alloc::AllocError;
use ts_model::Triple;

/// Appends the line of a triple: subject, space, predicate, space, object, space, `.`, LF. It reads back as that triple.
/// Where memory runs out, a part of it may stand behind what was there.
pub fn write_triple(triple: &Triple, into: &mut Vec<u8>) -> Result<(), AllocError>
    ensures ok { OnOk result (into.new.items ≡ into.old.items ++ triple_line triple.now) }
    ensures reads { OnOk result ((line : List ℕ) × (into.new.items ≡ into.old.items ++ (line ++ 0x0A ∷ [])) × IsReadAs line (record { sign = Add; triple = triple.now })) }
    ensures err { OnErr result (Extends into.old.items into.new.items) }
{
    into.extend_from_slice(triple.subject().spelling())?;
    into.push(b' ')?;
    into.extend_from_slice(triple.predicate().spelling())?;
    into.push(b' ')?;
    into.extend_from_slice(triple.object().spelling())?;
    into.extend_from_slice(b" .\n")
}

/// The line of a triple, without its line feed, reads as that triple with `Add`.
pub fn printed_triple_reads_back()
    ensures { (triple : TextTriple) → IsTriple triple
        → (line : List ℕ) × (triple_line triple ≡ line ++ 0x0A ∷ []) × IsReadAs line (record { sign = Add; triple = triple }) }
{}
