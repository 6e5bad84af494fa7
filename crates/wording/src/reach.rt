// The text of the rights that frames hold and of the places that blocks may write.
use std::fmt;

// Ascending numbers, each behind a space, neighbours as a range.
#[derive(Drop)]
struct Numbers<'a>(&'a [u8]);

impl<'a> fmt::Display for Numbers<'a> {
    fn fmt<W: fmt::Write>(&self, f: &mut fmt::Formatter<W>) -> fmt::Result {
        let numbers = self.0;
        if numbers.is_empty() {
            return f.write_str(" none");
        }
        for run in numbers.chunk_by(|low, high| low.checked_add(1) == Some(*high)) {
            match run {
                [] => {}
                [only] => write!(f, " {only}")?,
                [first, .., last] => write!(f, " {first}-{last}")?,
            }
        }
        Ok(())
    }
}

// Who holds numbers: a party holds rights, by its frame; a device needs rights of whoever drives it; a block may write
// places.
#[derive(Clone, Copy, Debug, PartialEq, Eq)]
pub enum Holder {
    Party,
    Device,
    Block,
}

impl Holder {
    // What its numbers are.
    fn held(self) -> &'static str {
        match self {
            Holder::Party | Holder::Device => "rights",
            Holder::Block => "places",
        }
    }
}

impl fmt::Display for Holder {
    fn fmt<W: fmt::Write>(&self, f: &mut fmt::Formatter<W>) -> fmt::Result {
        f.pad(match self {
            Holder::Party => "party",
            Holder::Device => "device",
            Holder::Block => "block",
        })
    }
}

// The rights or the places of a holder, which has a number among those of its sort.
#[derive(Drop)]
pub struct HeldText<'a> {
    pub holder: Holder,
    pub number: usize,
    pub numbers: &'a [u8],
}

impl<'a> fmt::Display for HeldText<'a> {
    fn fmt<W: fmt::Write>(&self, f: &mut fmt::Formatter<W>) -> fmt::Result {
        let (holder, number, held) = (self.holder, self.number, self.holder.held());
        let numbers = Numbers(self.numbers);
        write!(f, "  {holder:<10}{number:>3}  {held}{numbers}")
    }
}
