//! Single faults of the store that was written by hand: each puts one page in place of another, or behind the last one.

use super::written::*;
use page_store::PageKind;

/// A fault: what it is, and the page that stands at a place instead.
pub(crate) struct Fault {
    pub(crate) what: &'static str,
    pub(crate) page: usize,
    pub(crate) instead: PageText,
}

/// Faults of the meta page.
pub(crate) static META_FAULTS: &[Fault] = &[
    Fault {
        what: "23 bytes",
        page: 0,
        instead: PageText {
            kind: PageKind::Meta,
            level: 0,
            right: 0,
            cells: &[b"\0\0\0\0\0\0\0\x05\0\0\0\0\0\0\0\x0a\0\0\0\0\0\0\0"],
        },
    },
    Fault {
        what: "25 bytes",
        page: 0,
        instead: PageText {
            kind: PageKind::Meta,
            level: 0,
            right: 0,
            cells: &[b"\0\0\0\0\0\0\0\x05\0\0\0\0\0\0\0\x0a\0\0\0\0\0\0\0\x08\0"],
        },
    },
    Fault {
        what: "no cell",
        page: 0,
        instead: PageText {
            kind: PageKind::Meta,
            level: 0,
            right: 0,
            cells: &[],
        },
    },
    Fault {
        what: "two cells",
        page: 0,
        instead: PageText {
            kind: PageKind::Meta,
            level: 0,
            right: 0,
            cells: &[META, META],
        },
    },
    Fault {
        what: "a leaf",
        page: 0,
        instead: PageText {
            kind: PageKind::Leaf,
            level: 0,
            right: 0,
            cells: &[META],
        },
    },
    Fault {
        what: "a free page",
        page: 0,
        instead: PageText {
            kind: PageKind::Free,
            level: 0,
            right: 0,
            cells: &[META],
        },
    },
    Fault {
        what: "a next genid that a version has",
        page: 0,
        instead: PageText {
            kind: PageKind::Meta,
            level: 0,
            right: 0,
            cells: &[b"\0\0\0\0\0\0\0\x04\0\0\0\0\0\0\0\x0a\0\0\0\0\0\0\0\x08"],
        },
    },
    Fault {
        what: "a next genid of 2^62",
        page: 0,
        instead: PageText {
            kind: PageKind::Meta,
            level: 0,
            right: 0,
            cells: &[b"@\0\0\0\0\0\0\0\0\0\0\0\0\0\0\x0a\0\0\0\0\0\0\0\x08"],
        },
    },
    Fault {
        what: "a page too few",
        page: 0,
        instead: PageText {
            kind: PageKind::Meta,
            level: 0,
            right: 0,
            cells: &[b"\0\0\0\0\0\0\0\x05\0\0\0\0\0\0\0\x09\0\0\0\0\0\0\0\x08"],
        },
    },
    Fault {
        what: "as many pages as trees",
        page: 0,
        instead: PageText {
            kind: PageKind::Meta,
            level: 0,
            right: 0,
            cells: &[b"\0\0\0\0\0\0\0\x05\0\0\0\0\0\0\0\x06\0\0\0\0\0\0\0\0"],
        },
    },
    Fault {
        what: "2^62 pages",
        page: 0,
        instead: PageText {
            kind: PageKind::Meta,
            level: 0,
            right: 0,
            cells: &[b"\0\0\0\0\0\0\0\x05@\0\0\0\0\0\0\0\0\0\0\0\0\0\0\x08"],
        },
    },
    Fault {
        what: "a first free page in a tree",
        page: 0,
        instead: PageText {
            kind: PageKind::Meta,
            level: 0,
            right: 0,
            cells: &[b"\0\0\0\0\0\0\0\x05\0\0\0\0\0\0\0\x0a\0\0\0\0\0\0\0\x06"],
        },
    },
    Fault {
        what: "a first free page past the end",
        page: 0,
        instead: PageText {
            kind: PageKind::Meta,
            level: 0,
            right: 0,
            cells: &[b"\0\0\0\0\0\0\0\x05\0\0\0\0\0\0\0\x0a\0\0\0\0\0\0\0\x0a"],
        },
    },
];

/// Faults of the free pages, and of the pages past the end.
pub(crate) static FREE_FAULTS: &[Fault] = &[
    Fault {
        what: "a free page with a cell",
        page: 8,
        instead: PageText {
            kind: PageKind::Free,
            level: 0,
            right: 9,
            cells: &[b""],
        },
    },
    Fault {
        what: "a free page of level 1",
        page: 8,
        instead: PageText {
            kind: PageKind::Free,
            level: 1,
            right: 9,
            cells: &[],
        },
    },
    Fault {
        what: "a free page that is a leaf",
        page: 8,
        instead: PageText {
            kind: PageKind::Leaf,
            level: 0,
            right: 9,
            cells: &[],
        },
    },
    Fault {
        what: "a free page before itself",
        page: 8,
        instead: PageText {
            kind: PageKind::Free,
            level: 0,
            right: 8,
            cells: &[],
        },
    },
    Fault {
        what: "free pages in a ring",
        page: 9,
        instead: PageText {
            kind: PageKind::Free,
            level: 0,
            right: 8,
            cells: &[],
        },
    },
    Fault {
        what: "a free page before a tree",
        page: 9,
        instead: PageText {
            kind: PageKind::Free,
            level: 0,
            right: 2,
            cells: &[],
        },
    },
    Fault {
        what: "a free page before one past the end",
        page: 9,
        instead: PageText {
            kind: PageKind::Free,
            level: 0,
            right: 10,
            cells: &[],
        },
    },
    Fault {
        what: "an empty leaf past the end",
        page: 10,
        instead: PageText {
            kind: PageKind::Leaf,
            level: 0,
            right: 0,
            cells: &[],
        },
    },
    Fault {
        what: "a page past the end that was written once",
        page: 10,
        instead: PageText {
            kind: PageKind::Free,
            level: 0,
            right: 0,
            cells: &[],
        },
    },
];

/// Faults of the root of the rows of t.
pub(crate) static ROOT_FAULTS: &[Fault] = &[
    Fault {
        what: "a root of level 2",
        page: 1,
        instead: PageText {
            kind: PageKind::Inner,
            level: 2,
            right: 0,
            cells: &[LEFT, RIGHT],
        },
    },
    Fault {
        what: "a root of level 0",
        page: 1,
        instead: PageText {
            kind: PageKind::Inner,
            level: 0,
            right: 0,
            cells: &[LEFT, RIGHT],
        },
    },
    Fault {
        what: "a root that is a leaf",
        page: 1,
        instead: PageText {
            kind: PageKind::Leaf,
            level: 0,
            right: 0,
            cells: &[LEFT, RIGHT],
        },
    },
    Fault {
        what: "a root that is free",
        page: 1,
        instead: PageText {
            kind: PageKind::Free,
            level: 0,
            right: 0,
            cells: &[],
        },
    },
    Fault {
        what: "a root without cells",
        page: 1,
        instead: PageText {
            kind: PageKind::Inner,
            level: 1,
            right: 0,
            cells: &[],
        },
    },
    Fault {
        what: "a first key that is not empty",
        page: 1,
        instead: PageText {
            kind: PageKind::Inner,
            level: 1,
            right: 0,
            cells: &[b"\0\x08\0\0\0\0\0\0\0\x01\0\0\0\0\0\0\0\x06", RIGHT],
        },
    },
    Fault {
        what: "a key above what is below it",
        page: 1,
        instead: PageText {
            kind: PageKind::Inner,
            level: 1,
            right: 0,
            cells: &[LEFT, b"\0\x08\0\0\0\0\0\0\0\x05\0\0\0\0\0\0\0\x07"],
        },
    },
    Fault {
        what: "a key that is not above what is before it",
        page: 1,
        instead: PageText {
            kind: PageKind::Inner,
            level: 1,
            right: 0,
            cells: &[LEFT, b"\0\x08\0\0\0\0\0\0\0\x03\0\0\0\0\0\0\0\x07"],
        },
    },
    Fault {
        what: "a root without its second leaf",
        page: 1,
        instead: PageText {
            kind: PageKind::Inner,
            level: 1,
            right: 0,
            cells: &[LEFT],
        },
    },
    Fault {
        what: "a leaf that is there twice",
        page: 1,
        instead: PageText {
            kind: PageKind::Inner,
            level: 1,
            right: 0,
            cells: &[LEFT, b"\0\x08\0\0\0\0\0\0\0\x04\0\0\0\0\0\0\0\x06"],
        },
    },
    Fault {
        what: "a root below itself",
        page: 1,
        instead: PageText {
            kind: PageKind::Inner,
            level: 1,
            right: 0,
            cells: &[LEFT, b"\0\x08\0\0\0\0\0\0\0\x04\0\0\0\0\0\0\0\x01"],
        },
    },
    Fault {
        what: "a leaf of another tree",
        page: 1,
        instead: PageText {
            kind: PageKind::Inner,
            level: 1,
            right: 0,
            cells: &[LEFT, b"\0\x08\0\0\0\0\0\0\0\x04\0\0\0\0\0\0\0\x05"],
        },
    },
    Fault {
        what: "a free page in a tree",
        page: 1,
        instead: PageText {
            kind: PageKind::Inner,
            level: 1,
            right: 0,
            cells: &[LEFT, b"\0\x08\0\0\0\0\0\0\0\x04\0\0\0\0\0\0\0\x09"],
        },
    },
    Fault {
        what: "a page past the end in a tree",
        page: 1,
        instead: PageText {
            kind: PageKind::Inner,
            level: 1,
            right: 0,
            cells: &[LEFT, b"\0\x08\0\0\0\0\0\0\0\x04\0\0\0\0\0\0\0\x0a"],
        },
    },
    Fault {
        what: "the meta page in a tree",
        page: 1,
        instead: PageText {
            kind: PageKind::Inner,
            level: 1,
            right: 0,
            cells: &[LEFT, b"\0\x08\0\0\0\0\0\0\0\x04\0\0\0\0\0\0\0\0"],
        },
    },
    Fault {
        what: "a child of 7 bytes",
        page: 1,
        instead: PageText {
            kind: PageKind::Inner,
            level: 1,
            right: 0,
            cells: &[LEFT, b"\0\x08\0\0\0\0\0\0\0\x04\0\0\0\0\0\0\0"],
        },
    },
];

/// Faults of the leaves of the rows of t.
pub(crate) static LEAF_FAULTS: &[Fault] = &[
    Fault {
        what: "a row of leaves that ends too early",
        page: 6,
        instead: PageText {
            kind: PageKind::Leaf,
            level: 0,
            right: 0,
            cells: &[ROW_1, ROW_3],
        },
    },
    Fault {
        what: "a link past the next leaf",
        page: 6,
        instead: PageText {
            kind: PageKind::Leaf,
            level: 0,
            right: 8,
            cells: &[ROW_1, ROW_3],
        },
    },
    Fault {
        what: "leaves in a ring",
        page: 7,
        instead: PageText {
            kind: PageKind::Leaf,
            level: 0,
            right: 6,
            cells: &[ROW_4],
        },
    },
    Fault {
        what: "a leaf of level 1",
        page: 6,
        instead: PageText {
            kind: PageKind::Leaf,
            level: 1,
            right: 7,
            cells: &[ROW_1, ROW_3],
        },
    },
    Fault {
        what: "a leaf that is free",
        page: 6,
        instead: PageText {
            kind: PageKind::Free,
            level: 0,
            right: 7,
            cells: &[ROW_1, ROW_3],
        },
    },
    Fault {
        what: "genids that fall",
        page: 6,
        instead: PageText {
            kind: PageKind::Leaf,
            level: 0,
            right: 7,
            cells: &[ROW_3, ROW_1],
        },
    },
    Fault {
        what: "a version twice",
        page: 6,
        instead: PageText {
            kind: PageKind::Leaf,
            level: 0,
            right: 7,
            cells: &[ROW_1, ROW_3, ROW_3],
        },
    },
    Fault {
        what: "a version of the next leaf",
        page: 6,
        instead: PageText {
            kind: PageKind::Leaf,
            level: 0,
            right: 7,
            cells: &[ROW_1, ROW_3, ROW_4],
        },
    },
    Fault {
        what: "a version too few",
        page: 6,
        instead: PageText {
            kind: PageKind::Leaf,
            level: 0,
            right: 7,
            cells: &[ROW_1],
        },
    },
    Fault {
        what: "a cell of one byte",
        page: 7,
        instead: PageText {
            kind: PageKind::Leaf,
            level: 0,
            right: 0,
            cells: &[b"\0"],
        },
    },
    Fault {
        what: "a genid of 7 bytes",
        page: 7,
        instead: PageText {
            kind: PageKind::Leaf,
            level: 0,
            right: 0,
            cells: &[b"\0\x07\0\0\0\0\0\0\x04\x01\0\0\0\0\0\0\0\x07\x02\0\0\0\x02b\0"],
        },
    },
];

/// Faults of the row of version 4.
pub(crate) static ROW_FAULTS: &[Fault] = &[
    Fault {
        what: "a code cut short",
        page: 7,
        instead: PageText {
            kind: PageKind::Leaf,
            level: 0,
            right: 0,
            cells: &[b"\0\x08\0\0\0\0\0\0\0\x04\x01\0\0\0\0\0\0\0\x07\x02\0\0\0\x02b"],
        },
    },
    Fault {
        what: "a code with a byte behind it",
        page: 7,
        instead: PageText {
            kind: PageKind::Leaf,
            level: 0,
            right: 0,
            cells: &[b"\0\x08\0\0\0\0\0\0\0\x04\x01\0\0\0\0\0\0\0\x07\x02\0\0\0\x02b\0\0"],
        },
    },
    Fault {
        what: "a text that is not UTF-8",
        page: 7,
        instead: PageText {
            kind: PageKind::Leaf,
            level: 0,
            right: 0,
            cells: &[b"\0\x08\0\0\0\0\0\0\0\x04\x01\0\0\0\0\0\0\0\x07\x02\0\0\0\x02b\xff"],
        },
    },
    Fault {
        what: "an unknown tag",
        page: 7,
        instead: PageText {
            kind: PageKind::Leaf,
            level: 0,
            right: 0,
            cells: &[b"\0\x08\0\0\0\0\0\0\0\x04\x04\0\0\0\0\0\0\0\x07\x02\0\0\0\x02b\0"],
        },
    },
    Fault {
        what: "NULL where none may stand",
        page: 7,
        instead: PageText {
            kind: PageKind::Leaf,
            level: 0,
            right: 0,
            cells: &[b"\0\x08\0\0\0\0\0\0\0\x04\0\x02\0\0\0\x02b\0"],
        },
    },
    Fault {
        what: "a text where an integer is to stand",
        page: 7,
        instead: PageText {
            kind: PageKind::Leaf,
            level: 0,
            right: 0,
            cells: &[b"\0\x08\0\0\0\0\0\0\0\x04\x02\0\0\0\x017\x02\0\0\0\x02b\0"],
        },
    },
    Fault {
        what: "a value too few",
        page: 7,
        instead: PageText {
            kind: PageKind::Leaf,
            level: 0,
            right: 0,
            cells: &[b"\0\x08\0\0\0\0\0\0\0\x04\x01\0\0\0\0\0\0\0\x07"],
        },
    },
    Fault {
        what: "a value too many",
        page: 7,
        instead: PageText {
            kind: PageKind::Leaf,
            level: 0,
            right: 0,
            cells: &[b"\0\x08\0\0\0\0\0\0\0\x04\x01\0\0\0\0\0\0\0\x07\x02\0\0\0\x02b\0\0"],
        },
    },
    Fault {
        what: "another id than its key has",
        page: 7,
        instead: PageText {
            kind: PageKind::Leaf,
            level: 0,
            right: 0,
            cells: &[b"\0\x08\0\0\0\0\0\0\0\x04\x01\0\0\0\0\0\0\0\x08\x02\0\0\0\x02b\0"],
        },
    },
];

/// Faults of the keys.
pub(crate) static KEY_FAULTS: &[Fault] = &[
    Fault {
        what: "an id too few",
        page: 2,
        instead: PageText {
            kind: PageKind::Leaf,
            level: 0,
            right: 0,
            cells: &[ID_4, ID_9],
        },
    },
    Fault {
        what: "an id too many",
        page: 2,
        instead: PageText {
            kind: PageKind::Leaf,
            level: 0,
            right: 0,
            cells: &[
                ID_4,
                ID_7,
                b"\0\x09\x01\x80\0\0\0\0\0\0\x08\0\0\0\0\0\0\0\x04",
                ID_9,
            ],
        },
    },
    Fault {
        what: "an id of another genid",
        page: 2,
        instead: PageText {
            kind: PageKind::Leaf,
            level: 0,
            right: 0,
            cells: &[
                ID_4,
                ID_7,
                b"\0\x09\x01\x80\0\0\0\0\0\0\x09\0\0\0\0\0\0\0\x03",
            ],
        },
    },
    Fault {
        what: "a genid of 7 bytes as a value",
        page: 2,
        instead: PageText {
            kind: PageKind::Leaf,
            level: 0,
            right: 0,
            cells: &[
                ID_4,
                b"\0\x09\x01\x80\0\0\0\0\0\0\x07\0\0\0\0\0\0\x04",
                ID_9,
            ],
        },
    },
    Fault {
        what: "an id that is not coded as a key",
        page: 2,
        instead: PageText {
            kind: PageKind::Leaf,
            level: 0,
            right: 0,
            cells: &[
                b"\0\x09\x01\0\0\0\0\0\0\0\x04\0\0\0\0\0\0\0\x03",
                ID_7,
                ID_9,
            ],
        },
    },
    Fault {
        what: "a name with a value",
        page: 3,
        instead: PageText {
            kind: PageKind::Leaf,
            level: 0,
            right: 0,
            cells: &[
                NAME_NULL,
                b"\0\x0c\x02a\0\0\0\0\0\0\0\0\0\x01\0\0\0\0\0\0\0\x01",
                NAME_B,
            ],
        },
    },
    Fault {
        what: "a name without a genid",
        page: 3,
        instead: PageText {
            kind: PageKind::Leaf,
            level: 0,
            right: 0,
            cells: &[NAME_NULL, b"\0\x04\x02a\0\0", NAME_B],
        },
    },
    Fault {
        what: "a name of another genid",
        page: 3,
        instead: PageText {
            kind: PageKind::Leaf,
            level: 0,
            right: 0,
            cells: &[NAME_NULL, b"\0\x0c\x02a\0\0\0\0\0\0\0\0\0\x02", NAME_B],
        },
    },
    Fault {
        what: "a NUL that is coded as a byte",
        page: 3,
        instead: PageText {
            kind: PageKind::Leaf,
            level: 0,
            right: 0,
            cells: &[NAME_NULL, NAME_A, b"\0\x0d\x02b\0\0\0\0\0\0\0\0\0\0\x04"],
        },
    },
    Fault {
        what: "no pair of a key",
        page: 5,
        instead: PageText {
            kind: PageKind::Leaf,
            level: 0,
            right: 0,
            cells: &[],
        },
    },
    Fault {
        what: "a version too many for its key",
        page: 4,
        instead: PageText {
            kind: PageKind::Leaf,
            level: 0,
            right: 0,
            cells: &[ROW_2, b"\0\x08\0\0\0\0\0\0\0\x03\x01\0\0\0\0\0\0\0\x06"],
        },
    },
    Fault {
        what: "a version of another genid than its key has",
        page: 4,
        instead: PageText {
            kind: PageKind::Leaf,
            level: 0,
            right: 0,
            cells: &[b"\0\x08\0\0\0\0\0\0\0\x03\x01\0\0\0\0\0\0\0\x05"],
        },
    },
];
