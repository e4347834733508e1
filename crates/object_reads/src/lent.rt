//! Objects whose files are lent.

ghost use Rattle.std.specs.Prelude.{◌≡◌, ◌<◌, ◌^◌, IfSome, length};
ghost use Rattle.std.specs.List.{All};
ghost use Rattle.std.proofs.Props.{props};
ghost use Rattle.object_reads.specs.Opening.{AreOpened};

use crate::opened::Opened;
use crate::target::Target;
use ds_base::Bytes;
use stab_map::MapObject;

/// The objects of programs, with files that are lent, and these files as they are opened for one of the programs.
#[derive(Drop)]
pub(crate) struct Lent<'a> {
    pub target: Target,
    pub objects: &'a [MapObject],
    pub numbers: &'a [Option<u32>],
    pub files: &'a [Bytes],
    pub opened: &'a [Opened<'a>],
    ghost few: { length objects.now < 2 ^ 20 },
    ghost each: { length numbers.now ≡ length objects.now },
    ghost held: { All (λ k. IfSome k (λ n. n < length files.now)) numbers.now } by { Prim.hlevel props },
    ghost are: { AreOpened target.arch files.now opened.now },
}
