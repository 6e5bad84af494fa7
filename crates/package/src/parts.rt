// Parts of a package's bytes.
ghost use Rattle.std.specs.Prelude.{◌≡◌, take, drop};

// The bytes of a part; none past their end.
pub fn part(bytes: &[u8], start: usize, count: usize) -> &[u8]
    ensures { result.now ≡ take count (drop start bytes.now) }
{
    let tail = bytes.get(start..).unwrap_or(&[]);
    tail.get(..count).unwrap_or(tail)
}
