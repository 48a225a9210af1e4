ghost use Rattle.std.specs.Prelude.{◌≡◌, ◌≢◌, IfSome, IfNone};
ghost use Rattle.page_cells.specs.Layout.{child_len, kind_byte, page_header_len};

/// The kind of a page of a tree (fileformat2.html, "B-tree Pages").
#[derive(Clone, Copy, Debug, PartialEq, Eq)]
pub enum Kind {
    IndexInner,
    TableInner,
    IndexLeaf,
    TableLeaf,
}

impl Kind {
    /// The first byte of the page's own header.
    pub fn byte(self) -> u8
        ensures { result ≡ kind_byte self }
    {
        match self {
            Kind::IndexInner => 2,
            Kind::TableInner => 5,
            Kind::IndexLeaf => 10,
            Kind::TableLeaf => 13,
        }
    }

    /// The kind of a page whose own header has this first byte.
    pub fn of_byte(byte: u8) -> Option<Kind>
        ensures found { IfSome result (λ kind. byte ≡ kind_byte kind) }
        ensures none { IfNone result ((kind : Kind) → byte ≢ kind_byte kind) }
    {
        match byte {
            2 => Some(Kind::IndexInner),
            5 => Some(Kind::TableInner),
            10 => Some(Kind::IndexLeaf),
            13 => Some(Kind::TableLeaf),
            _ => None,
        }
    }

    /// The length in bytes of the number of a child's page, which interior pages have in each cell and
    /// at the end of their own header.
    pub fn child_len(self) -> usize
        ensures { result ≡ child_len self }
    {
        match self {
            Kind::IndexInner | Kind::TableInner => 4,
            Kind::IndexLeaf | Kind::TableLeaf => 0,
        }
    }

    /// The length in bytes of the page's own header, at whose end interior pages have a child.
    pub fn header_len(self) -> usize
        ensures { result ≡ page_header_len self }
    {
        8 + self.child_len()
    }
}
