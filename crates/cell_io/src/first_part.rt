ghost use Rattle.std.specs.Prelude.{◌≡◌, ◌≤◌, length, take, drop};
ghost use Rattle.cell_io.specs.Lines.{first_line, after_line, has_feed};

use memchr::memchr;

/// The front of a text that belongs to its first line, and whether the line ends there.
#[derive(Clone, Copy, Debug, PartialEq, Eq, Drop)]
pub struct FirstPart {
    pub size: usize,
    pub ended: bool,
}

/// Where the first line of a text ends: behind its first line feed, or else at the text's end.
pub fn first_part(bytes: &[u8]) -> FirstPart
    ensures within { result.size ≤ length bytes.now }
    ensures first { take result.size bytes.now ≡ first_line bytes.now }
    ensures after { drop result.size bytes.now ≡ after_line bytes.now }
    ensures ended { has_feed bytes.now ≡ result.ended }
{
    match memchr(b'\n', bytes) {
        Some(place) => FirstPart {
            size: place + 1,
            ended: true,
        },
        None => FirstPart {
            size: bytes.len(),
            ended: false,
        },
    }
}
