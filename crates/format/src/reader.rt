// A reader of a file's bytes, and its readings of single fields and of words.
// Each field, here and in the sections, tests its byte itself: one for all, given the test, was tried and needs
// a proof at each, where now there is none.
ghost use Rattle.std.specs.Prelude.{◌≡◌, length, ◌-◌, take};
ghost use Rattle.layout.specs.Laws.{Bytes};
ghost use Rattle.layout.specs.Reading.{one, within, below, word, ended, place, value_of};
ghost use Rattle.format.specs.Views.{Reads, lent};

use layout::Fault;

// How many bytes there are in all, and those that are left to be read. After a fault no more is read.
#[derive(Drop)]
pub(crate) struct Reader<'a> {
    pub(crate) total: usize,
    pub(crate) left: &'a [u8],
}

impl<'a> Reader<'a> {
    // Where the bytes that are left begin.
    pub(crate) fn place(&self) -> usize
        ensures { result ≡ place self.now.total self.now.left.now }
    {
        self.total.saturating_sub(self.left.len())
    }

    // What was read of `body`, which was left before; and, for proofs, that `body` is made of bytes.
    pub(crate) fn read_of(&self, body: &'a [u8]) -> &'a [u8]
        ensures value { result.now ≡ take (length body.now - length self.now.left.now) body.now }
        ensures bytes { Bytes body.now }
    {
        &body[..body.len().saturating_sub(self.left.len())]
    }

    // One byte.
    pub(crate) fn byte(&mut self) -> Result<u8, Fault>
        ensures { Reads one self.old result self.new }
    {
        let byte = self.left.split_off_first();
        byte.copied().ok_or(Fault::Short(self.total))
    }

    // A count or a length from `low` to `high`.
    pub(crate) fn count_within(&mut self, low: u8, high: u8) -> Result<u8, Fault>
        ensures { Reads (λ t. within t low high) self.old result self.new }
    {
        let place = self.place();
        let count = self.byte()?;
        if (low..=high).contains(&count) {
            Ok(count)
        } else {
            Err(Fault::Limit(place))
        }
    }

    // A symbol below `count`. No field: a reader has no count before it has read the names.
    pub(crate) fn symbol_below(&mut self, count: u8) -> Result<u8, Fault>
        ensures { Reads (λ t. below t count) self.old result self.new }
    {
        let place = self.place();
        let symbol = self.byte()?;
        if symbol < count {
            Ok(symbol)
        } else {
            Err(Fault::Symbol(place))
        }
    }

    // `len` symbols below `count`.
    #[tactic(auto, using(crate::proofs::Items::on_wrong))]
    pub(crate) fn word(&mut self, count: u8, len: u8) -> Result<&'a [u8], Fault>
        ensures { Reads (λ t. word t count len) self.old (lent result) self.new }
    {
        let body = self.left;
        // One behind the other: nothing is indexed.
        for _ in 0..len {
            self.symbol_below(count)?;
        }
        Ok(self.read_of(body))
    }

    // The end: nothing is left.
    pub(crate) fn end(&self) -> Result<(), Fault>
        ensures { result ≡ value_of (ended self.now.total tt self.now.left.now) }
    {
        if !self.left.is_empty() {
            return Err(Fault::Trailing(self.place()));
        }
        Ok(())
    }
}
