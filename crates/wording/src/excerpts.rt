// The bytes around the place of a fault.
use std::fmt;

// The bytes from eight before an offset to eight behind it, the one at the offset in brackets.
#[derive(Drop)]
pub struct Excerpt<'a> {
    pub bytes: &'a [u8],
    pub offset: usize,
}

impl<'a> fmt::Display for Excerpt<'a> {
    fn fmt<W: fmt::Write>(&self, f: &mut fmt::Formatter<W>) -> fmt::Result {
        let offset = self.offset;
        let first = offset.saturating_sub(8);
        write!(f, "bytes from offset {first} on:")?;
        for (i, byte) in self.bytes.iter().enumerate().skip(first).take(17) {
            if i == offset {
                write!(f, " [{byte:02x}]")?;
            } else {
                write!(f, " {byte:02x}")?;
            }
        }
        if offset >= self.bytes.len() {
            f.write_str(" [end]")?;
        }
        Ok(())
    }
}
