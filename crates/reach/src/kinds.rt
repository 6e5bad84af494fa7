// The frame kinds by their names.
ghost use Rattle.std.specs.Prelude.{Some, codes};
ghost use Rattle.reach.specs.Kinds.{word_of, ReadsKind};

use std::error::Error;
use std::fmt;
use std::str::FromStr;

#[derive(Clone, Copy, Debug, PartialEq, Eq)]
pub enum KindName {
    Rights,
    Levels,
}

// A word that names no kind.
#[derive(Clone, Copy, Debug, PartialEq, Eq)]
pub struct UnknownKind;

impl FromStr for KindName {
    type Err = UnknownKind;

    ghost from_str_gives = { ReadsKind };

    fn from_str(word: &str) -> Result<KindName, UnknownKind> {
        match word {
            "rights" => Ok(KindName::Rights),
            "levels" => Ok(KindName::Levels),
            _ => Err(UnknownKind),
        }
    }
}

impl fmt::Display for KindName {
    ghost output = { λ k. Some (word_of k) };

    fn fmt<W: fmt::Write>(&self, f: &mut fmt::Formatter<W>) -> fmt::Result {
        f.write_str(match self {
            KindName::Rights => "rights",
            KindName::Levels => "levels",
        })
    }
}

impl fmt::Display for UnknownKind {
    ghost output = { λ _. Some (codes "no such frame kind") };

    fn fmt<W: fmt::Write>(&self, f: &mut fmt::Formatter<W>) -> fmt::Result {
        f.write_str("no such frame kind")
    }
}

impl Error for UnknownKind {}

#[cfg(test)]
mod tests {
    use super::*;
    use std::test::Fail;

    #[test]
    fn kinds_go_by_their_names(rt: HostRuntime) -> Result<(), Fail> {
        assert_eq!(rt; "rights".parse::<KindName>(), Ok(KindName::Rights));
        assert_eq!(rt; "levels".parse::<KindName>(), Ok(KindName::Levels));
        for word in ["", "level", "levelss", "Levels"] {
            assert_eq!(rt; word.parse::<KindName>(), Err(UnknownKind));
        }
        let names = format!(in rt.alloc(); "{} {}", KindName::Rights, KindName::Levels)?;
        assert_eq!(rt; names.as_str(), "rights levels");
        let refusal = format!(in rt.alloc(); "{}", UnknownKind)?;
        assert_eq!(rt; refusal.as_str(), "no such frame kind");
        Ok(())
    }
}
