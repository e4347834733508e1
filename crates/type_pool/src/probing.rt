//! The cells that are probed for a name.

ghost use Rattle.std.specs.Prelude.{◌≡◌, ◌<◌, ◌≤◌, ◌^◌};
ghost use Rattle.type_pool.specs.Standing.{probe};

/// How many cells are probed for a name.
pub const PROBES: u32 = 64;

/// The cell that is probed at a turn, from the name's start on and round again.
pub fn probed(start: u32, cells: u32, turn: u32) -> u32
    requires start { start < cells }
    requires turn { (turn < cells) × (cells ≤ 2 ^ 24) }
    ensures cell { result ≡ probe start cells turn }
    ensures inside { result < cells }
{
    let cell = start + turn;
    if cell < cells { cell } else { cell - cells }
}
