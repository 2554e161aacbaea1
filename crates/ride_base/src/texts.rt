ghost use Rattle.std.specs.Prelude.{◌≡◌, ◌≢◌, ℕ, true, ◌+◌, ◌<◌, ◌≤◌, List, length, IfOk, Err};
ghost use Rattle.ride_base.specs.Outside.{CountRose, CountStays, OnlyRead};
ghost use Rattle.ride_base.specs.Buffers.{CameAtMost};
ghost use Rattle.ride_base.specs.Reader.{longest_read};
ghost use Rattle.ride_base.specs.Reading.{TellsWhole};

use crate::buffer::read_piece;
use crate::items::Items;
use crate::lines::LineFault;
use crate::outside::Shelf;
use std::alloc::Global;

/// The rest of the text that is begun, of at most so many bytes. After an error some of it may be lost. `Long` never comes.
pub fn whole<S: Shelf>(alloc: Global, shelf: &mut S, limit: u64) -> Result<Items<u8>, LineFault>
    requires { (S.seen shelf.old).begun ≡ true }
    ensures tells { TellsWhole (S.seen shelf.old).left limit result (S.seen shelf.new).left }
    ensures near { CameAtMost (limit + longest_read)
        (S.seen shelf.old).left (S.seen shelf.new).left }
    ensures short { IfOk result (λ text. length text ≤ limit) }
    ensures rose { result ≡ Err LineFault.Fault → CountRose (S.seen shelf.old) (S.seen shelf.new) }
    ensures quiet { (S.seen shelf.old).quiet ≡ true → result ≢ Err LineFault.Fault
        → CountStays (S.seen shelf.old) (S.seen shelf.new) }
    ensures surely { (S.seen shelf.old).sure ≡ true → result ≡ Err LineFault.Fault → ⊥ }
    ensures unlined { result ≡ Err LineFault.Long → ⊥ }
    ensures shelf { OnlyRead (S.seen shelf.old) (S.seen shelf.new) }
{
    let mut text = Vec::new(alloc);
    loop {
        if read_piece(shelf, &mut text)? == 0 {
            return Ok(Items::from_vec(text));
        }
        if text.len() as u64 > limit {
            return Err(LineFault::Large);
        }
    }
}
