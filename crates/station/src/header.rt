// The header of an input: the frame kind, the write oracle and the package.
ghost use Rattle.std.specs.Prelude.{◌≡◌, MatchResult};
ghost use Rattle.station.specs.declared.header.Kind.TheVariants.{Rights, Levels};
ghost use Rattle.station.specs.declared.header.Oracle.TheVariants.{Walking, Broad};
ghost use Rattle.station.specs.Header.{choice, sized, header, header_of};

use super::lines::Stop;

#[derive(Clone, Copy, Debug, PartialEq, Eq)]
pub(crate) enum Kind {
    Rights,
    Levels,
}

#[derive(Clone, Copy, Debug, PartialEq, Eq)]
pub(crate) enum Oracle {
    Walking,
    Broad,
}

// What the header names, the bytes of the package, and those of the calls behind it.
#[derive(Clone, Copy)]
pub(crate) struct Header<'a> {
    pub(crate) kind: Kind,
    pub(crate) oracle: Oracle,
    pub(crate) bytes: &'a [u8],
    pub(crate) calls: &'a [u8],
}

// The frame kind of the first byte, and the bytes behind it.
fn read_kind<'a>(bytes: &'a [u8]) -> Result<(Kind, &'a [u8]), Stop>
    ensures { MatchResult result (λ p. choice Rights Levels bytes.now ≡ Ok (p.0, p.1.now)) (λ s. choice Rights Levels bytes.now ≡ Err s) }
{
    match bytes {
        [] => Err(Stop::EndsEarly),
        [0x00, rest @ ..] => Ok((Kind::Rights, rest)),
        [0x01, rest @ ..] => Ok((Kind::Levels, rest)),
        _ => Err(Stop::WrongByte),
    }
}

// The write oracle of the first byte, and the bytes behind it.
fn read_oracle<'a>(bytes: &'a [u8]) -> Result<(Oracle, &'a [u8]), Stop>
    ensures { MatchResult result (λ p. choice Walking Broad bytes.now ≡ Ok (p.0, p.1.now)) (λ s. choice Walking Broad bytes.now ≡ Err s) }
{
    match bytes {
        [] => Err(Stop::EndsEarly),
        [0x00, rest @ ..] => Ok((Oracle::Walking, rest)),
        [0x01, rest @ ..] => Ok((Oracle::Broad, rest)),
        _ => Err(Stop::WrongByte),
    }
}

// The package, behind two bytes with its length, and the bytes behind it.
fn read_package<'a>(bytes: &'a [u8]) -> Result<(&'a [u8], &'a [u8]), Stop>
    ensures { MatchResult result (λ p. sized bytes.now ≡ Ok (p.0.now, p.1.now)) (λ s. sized bytes.now ≡ Err s) }
{
    let &[high, low, ref rest @ ..] = bytes else {
        return Err(Stop::EndsEarly);
    };
    let length = usize::from(u16::from_be_bytes([high, low]));
    if rest.len() < length {
        return Err(Stop::EndsEarly);
    }
    Ok(rest.split_at(length))
}

// The header at the front of an input.
pub(crate) fn read_header<'a>(input: &'a [u8]) -> Result<Header<'a>, Stop>
    ensures { MatchResult result (λ h. header input.now ≡ Ok (header_of h)) (λ s. header input.now ≡ Err s) }
{
    let (kind, rest) = read_kind(input)?;
    let (oracle, rest) = read_oracle(rest)?;
    let (bytes, calls) = read_package(rest)?;
    Ok(Header {
        kind,
        oracle,
        bytes,
        calls,
    })
}
