// Listing the layers.
ghost use Rattle.std.specs.Prelude.{◌≡◌, IfErr, IfOk, IsTrue, length, flat_map, false};
ghost use Rattle.ts_plain.specs.History.{AreHistory, history_of};
ghost use Rattle.ts_script.specs.Replies.{reply_text};
ghost use Rattle.ts_store.specs.Does.{Answers};
ghost use Rattle.ts_store.specs.Step.{layers_text, step_of};

use crate::answer::reply;
use crate::store::Store;
use crate::{Kind, Stop};
use ts_plain::PlainLayer;
use ts_script::{Command, Reply};
use ts_site::{Disk, Site};

/// Says a line for each layer with its parent, and how many they are. It takes no memory, so each line is said alone.
pub(crate) fn layers<W: Site>(store: &Store, site: &mut W) -> Result<Kind, Stop>
    ensures answers { let stepped = step_of store.now Command.Layers in
        Answers stepped.told stepped.refused result (W.outside site.old) (W.outside site.new) }
    ensures why { IfErr result (λ stop. stop ≡ Stop.OutputFault) }
{
    say_layers(store.layers.as_slice(), site)
}

fn say_layers<W: Site>(layers: &[PlainLayer], site: &mut W) -> Result<Kind, Stop>
    requires { AreHistory layers.now }
    ensures answers { Answers (layers_text (history_of layers.now)) false result (W.outside site.old) (W.outside site.new) }
    ensures why { IfErr result (λ stop. stop ≡ Stop.OutputFault) }
{
    for layer in layers {
        match reply(site, &Reply::LayerParent(layer.number, layer.parent)) {
            Err(stop) => return Err(stop),
            Ok(_) => {}
        }
    }
    reply(site, &Reply::Total(layers.len() as u128))
}
