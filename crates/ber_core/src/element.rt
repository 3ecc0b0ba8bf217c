//! What octets are cut into.

ghost use Rattle.std.specs.Prelude.{◌≡◌, true, false};

/// Which forms of the length an element may have (ITU-T X.690, 8.1.3).
#[derive(Clone, Copy)]
pub enum Lengths {
    /// The definite forms alone, also longer than needed.
    Definite,
    /// The definite forms, and the indefinite one of a constructed element.
    Either,
}

/// The tag of an element (ITU-T X.690, 8.1.2): its class from 0, universal, to 3, private; whether
/// its contents are elements; and its number.
#[derive(Clone, Copy)]
pub struct Tag {
    pub class: u8,
    pub constructed: bool,
    pub number: u32,
}

impl Tag {
    /// The tag of context class and of that number over contents that are no elements.
    #[inline]
    pub fn primitive(number: u32) -> Tag
        ensures { result ≡ record { class = 2; constructed = false; number = number } }
    {
        Tag {
            class: 2,
            constructed: false,
            number,
        }
    }

    /// The tag of context class and of that number over contents that are elements.
    #[inline]
    pub fn constructed(number: u32) -> Tag
        ensures { result ≡ record { class = 2; constructed = true; number = number } }
    {
        Tag {
            class: 2,
            constructed: true,
            number,
        }
    }

    /// The tag of universal class and of that number over contents that are no elements.
    #[inline]
    pub fn universal(number: u32) -> Tag
        ensures { result ≡ record { class = 0; constructed = false; number = number } }
    {
        Tag {
            class: 0,
            constructed: false,
            number,
        }
    }
}

/// One element: its tag and its contents.
#[derive(Clone, Copy)]
pub struct Element<'a> {
    pub tag: Tag,
    pub contents: &'a [u8],
}

/// A bit string: how many bits of the last octet are unused, from 0 to 7, and the octets.
#[derive(Clone, Copy)]
pub struct Bits<'a> {
    pub unused: u8,
    pub octets: &'a [u8],
}
