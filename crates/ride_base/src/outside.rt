ghost use Rattle.std.specs.Prelude.{◌≡◌, ◌<◌, ◌≤◌, true, false, length, OnOk, OnErr, IfOk, IsOk, Err};
ghost use Rattle.ride_base.specs.Outside.{Absent, ShelfState, SinkState, CountRose, CountStays, SinkCountRose, SinkCountStays, AddsName, BeginsAllOf, LeftStays, MovesInto, OnlyRead, Takes, TakesSome, TakesPrefix};

/// A call of the outside world failed.
#[derive(Clone, Copy, Debug, PartialEq, Eq)]
pub struct Failed;

/// Why no text was begun.
#[derive(Clone, Copy, Debug, PartialEq, Eq)]
pub enum BeginFault {
    /// The name isn't held, or the shelf failed. No text is begun then.
    Failed,
    /// The list of names had no memory. Nothing changed.
    NoMemory,
}

/// Texts under names, read one at a time in pieces.
pub trait Shelf {
    /// What is seen of it.
    ghost seen: { Self → ShelfState };

    /// Begins the text of a name: all of it is left. After `Failed` no text is begun, and after `NoMemory` nothing has changed.
    fn begin(&mut self, name: &str) -> Result<(), BeginFault>
        ensures holds { (seen self.new).held ≡ (seen self.old).held }
        ensures begun { OnOk result ((seen self.new).begun ≡ true) }
        ensures all { OnOk result (BeginsAllOf (seen self.old) name.now (seen self.new)) }
        ensures named { IsOk result → AddsName (seen self.old) name.now (seen self.new) }
        ensures failed { result ≡ Err BeginFault.Failed
            → AddsName (seen self.old) name.now (seen self.new) }
        ensures unbegun { result ≡ Err BeginFault.Failed → (seen self.new).begun ≡ false }
        ensures unmade { result ≡ Err BeginFault.NoMemory → self.new ≡ self.old }
        ensures counted { (seen self.old).faults ≤ (seen self.new).faults }
        ensures rose { result ≡ Err BeginFault.Failed → CountRose (seen self.old) (seen self.new) }
        ensures quiet { (seen self.old).quiet ≡ true → IsOk result
            → CountStays (seen self.old) (seen self.new) }
        ensures as_quiet { (seen self.new).quiet ≡ (seen self.old).quiet }
        ensures sure { (seen self.old).sure ≡ true → (seen self.new).sure ≡ true }
        ensures surely { (seen self.old).sure ≡ true → result ≡ Err BeginFault.Failed
            → (seen self.old).held name.now ≡ Absent }
        ensures silent { (seen self.old).sure ≡ true → IsOk result
            → CountStays (seen self.old) (seen self.new) };

    /// Moves the next bytes of the text into the front of the piece, and answers how many: 0 only at the end. After `Failed` as
    /// much is left as before.
    fn read(&mut self, piece: &mut [u8]) -> Result<usize, Failed>
        requires begun { (seen self.old).begun ≡ true }
        requires room { 0 < length piece.old }
        ensures shelf { OnlyRead (seen self.old) (seen self.new) }
        ensures ok { IfOk result (MovesInto (seen self.old) (seen self.new) piece.old piece.new) }
        ensures err { OnErr result (LeftStays (seen self.old) (seen self.new)) }
        ensures rose { OnErr result (CountRose (seen self.old) (seen self.new)) }
        ensures quiet { (seen self.old).quiet ≡ true → IsOk result
            → CountStays (seen self.old) (seen self.new) }
        ensures surely { (seen self.old).sure ≡ true → IsOk result };
}

/// Takes bytes.
pub trait Sink {
    /// What is seen of it.
    ghost seen: { Self → SinkState };

    /// Takes the first bytes of the piece, and answers how many: 1 or more. After `Failed` it has taken none.
    fn put(&mut self, piece: &[u8]) -> Result<usize, Failed>
        requires { 0 < length piece.now }
        ensures ok { IfOk result
            (TakesSome (seen self.old).taken (seen self.new).taken piece.now) }
        ensures err { OnErr result ((seen self.new).taken ≡ (seen self.old).taken) }
        ensures counted { (seen self.old).faults ≤ (seen self.new).faults }
        ensures rose { OnErr result (SinkCountRose (seen self.old) (seen self.new)) }
        ensures quiet { (seen self.old).quiet ≡ true → IsOk result
            → SinkCountStays (seen self.old) (seen self.new) }
        ensures as_quiet { (seen self.new).quiet ≡ (seen self.old).quiet };
}

/// Writes all the bytes. After `Failed` the sink has taken a prefix of them.
pub fn write_whole<K: Sink>(sink: &mut K, bytes: &[u8]) -> Result<(), Failed>
    ensures ok { OnOk result (Takes (K.seen sink.old).taken (K.seen sink.new).taken bytes.now) }
    ensures err { OnErr result
        (TakesPrefix (K.seen sink.old).taken (K.seen sink.new).taken bytes.now) }
    ensures counted { (K.seen sink.old).faults ≤ (K.seen sink.new).faults }
    ensures rose { OnErr result (SinkCountRose (K.seen sink.old) (K.seen sink.new)) }
    ensures quiet { (K.seen sink.old).quiet ≡ true → IsOk result
        → SinkCountStays (K.seen sink.old) (K.seen sink.new) }
    ensures as_quiet { (K.seen sink.new).quiet ≡ (K.seen sink.old).quiet }
{
    let mut done = 0;
    while done < bytes.len() {
        let rest = &bytes[done..];
        done += sink.put(rest)?;
    }
    Ok(())
}
