// Telling the labels.
ghost use Rattle.std.specs.Prelude.{◌≡◌, ◌≢◌, IfErr, false};
ghost use Rattle.ts_model.specs.Names.{IsLabelName};
ghost use Rattle.ts_replace.specs.Names.{label_file_name};
ghost use Rattle.ts_replace.specs.Replaced.{new_tmp};
ghost use Rattle.ts_store.specs.Does.{Answers};
ghost use Rattle.ts_store.specs.Puts.{labels_text};
ghost use Rattle.ts_store.specs.Step.{step_of};

use crate::answer::{refuse, reply};
use crate::find::find_label;
use crate::store::Store;
use crate::{Kind, Stop};
use ts_labels::{Label, LabelTable};
use ts_model::LabelName;
use ts_replace::label_file;
use ts_script::{Command, Reply};
use ts_site::{Disk, FileName, Site};

/// Says a line for each label, rising by the bytes of their names, and how many they are. It takes no memory, so each line is
/// said alone.
pub(crate) fn labels<W: Site>(store: &Store, site: &mut W) -> Result<Kind, Stop>
    ensures answers { let stepped = step_of store.now Command.Labels in
        Answers stepped.told stepped.refused result (W.outside site.old) (W.outside site.new) }
    ensures why { IfErr result (λ stop. stop ≡ Stop.OutputFault) }
{
    say_labels(&store.labels, site)
}

fn say_labels<W: Site>(labels: &LabelTable, site: &mut W) -> Result<Kind, Stop>
    ensures answers { Answers (labels_text labels.now.labels) false result (W.outside site.old) (W.outside site.new) }
    ensures why { IfErr result (λ stop. stop ≡ Stop.OutputFault) }
{
    for i in 0..labels.len() {
        let (name, label) = labels.at(i);
        match reply(site, &label_is(name, label)) {
            Err(stop) => return Err(stop),
            Ok(_) => {}
        }
    }
    reply(site, &Reply::Total(labels.len() as u128))
}

/// Says the line of a label. It takes no memory.
pub(crate) fn label_get<W: Site>(
    store: &Store,
    site: &mut W,
    name: &LabelName,
) -> Result<Kind, Stop>
    ensures answers { let stepped = step_of store.now (Command.LabelGet name.now) in
        Answers stepped.told stepped.refused result (W.outside site.old) (W.outside site.new) }
    ensures why { IfErr result (λ stop. stop ≡ Stop.OutputFault) }
{
    match find_label(store, name) {
        Err(refusal) => refuse(site, &refusal),
        Ok(label) => reply(site, &label_is(name.copy(), label)),
    }
}

/// The name of a label's file. A label may have the name for which it is asked.
pub(crate) fn file_of(name: &LabelName) -> FileName
    ensures file { result ≡ label_file_name name.now }
    ensures named { IsLabelName name.now }
    ensures other { label_file_name name.now ≢ new_tmp }
{
    // What is held as a name is one.
    let _bytes = name.bytes();
    label_file(name)
}

/// What is told of a label.
pub(crate) fn label_is(name: LabelName, label: Label) -> Reply
    ensures { result ≡ Reply.LabelIs name label.version label.layer }
{
    Reply::LabelIs(name, label.version, label.layer)
}
