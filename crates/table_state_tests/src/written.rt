//! A store of two tables, written by hand: its pages, and the cells on them.
//!
//! | Page | What | Cells |
//! |---|---|---|
//! | 0 | meta | next genid 5, 10 pages, first free page 8 |
//! | 1 | inner, the rows of t | from the beginning: page 6; from genid 4: page 7 |
//! | 2 | leaf, the key by_id of t | 4 -> 3, 7 -> 4, 9 -> 1 |
//! | 3 | leaf, the key by_name of t | NULL, 3; a, 1; b and a NUL, 4 |
//! | 4 | leaf, the rows of u | 2 -> (5) |
//! | 5 | leaf, the key by_n of u | 5, 2 |
//! | 6 | leaf, the rows of t, right link 7 | 1 -> (9, a), 3 -> (4, NULL) |
//! | 7 | leaf, the rows of t | 4 -> (7, b and a NUL) |
//! | 8 | free, right link 9 | |
//! | 9 | free | |

use page_store::PageKind;

/// The tables.
pub(crate) static TABLES: &[&str] = &[
    "create table t (id int not null, name text, unique by_id (id), key by_name (name))",
    "create table u (n int, key by_n (n))",
];

/// A page as it is written down.
pub(crate) struct PageText {
    pub(crate) kind: PageKind,
    pub(crate) level: u8,
    pub(crate) right: u64,
    pub(crate) cells: &'static [&'static [u8]],
}

/// The next genid 5, 10 pages, the first free page 8.
pub(crate) const META: &[u8] = b"\0\0\0\0\0\0\0\x05\0\0\0\0\0\0\0\x0a\0\0\0\0\0\0\0\x08";

/// The least key of all, and page 6.
pub(crate) const LEFT: &[u8] = b"\0\0\0\0\0\0\0\0\0\x06";

/// The genid 4, and page 7.
pub(crate) const RIGHT: &[u8] = b"\0\x08\0\0\0\0\0\0\0\x04\0\0\0\0\0\0\0\x07";

/// Version 1 of t: (9, a).
pub(crate) const ROW_1: &[u8] = b"\0\x08\0\0\0\0\0\0\0\x01\x01\0\0\0\0\0\0\0\x09\x02\0\0\0\x01a";

/// Version 3 of t: (4, NULL).
pub(crate) const ROW_3: &[u8] = b"\0\x08\0\0\0\0\0\0\0\x03\x01\0\0\0\0\0\0\0\x04\0";

/// Version 4 of t: (7, b and a NUL).
pub(crate) const ROW_4: &[u8] = b"\0\x08\0\0\0\0\0\0\0\x04\x01\0\0\0\0\0\0\0\x07\x02\0\0\0\x02b\0";

/// The id 4 of version 3.
pub(crate) const ID_4: &[u8] = b"\0\x09\x01\x80\0\0\0\0\0\0\x04\0\0\0\0\0\0\0\x03";

/// The id 7 of version 4.
pub(crate) const ID_7: &[u8] = b"\0\x09\x01\x80\0\0\0\0\0\0\x07\0\0\0\0\0\0\0\x04";

/// The id 9 of version 1.
pub(crate) const ID_9: &[u8] = b"\0\x09\x01\x80\0\0\0\0\0\0\x09\0\0\0\0\0\0\0\x01";

/// The name NULL, and genid 3.
pub(crate) const NAME_NULL: &[u8] = b"\0\x09\0\0\0\0\0\0\0\0\x03";

/// The name a, and genid 1.
pub(crate) const NAME_A: &[u8] = b"\0\x0c\x02a\0\0\0\0\0\0\0\0\0\x01";

/// The name b and a NUL, and genid 4.
pub(crate) const NAME_B: &[u8] = b"\0\x0e\x02b\0\xff\0\0\0\0\0\0\0\0\0\x04";

/// Version 2 of u: (5).
pub(crate) const ROW_2: &[u8] = b"\0\x08\0\0\0\0\0\0\0\x02\x01\0\0\0\0\0\0\0\x05";

/// The number 5, and genid 2.
pub(crate) const N_5: &[u8] = b"\0\x11\x01\x80\0\0\0\0\0\0\x05\0\0\0\0\0\0\0\x02";

/// The pages.
pub(crate) static PAGES: &[PageText] = &[
    PageText {
        kind: PageKind::Meta,
        level: 0,
        right: 0,
        cells: &[META],
    },
    PageText {
        kind: PageKind::Inner,
        level: 1,
        right: 0,
        cells: &[LEFT, RIGHT],
    },
    PageText {
        kind: PageKind::Leaf,
        level: 0,
        right: 0,
        cells: &[ID_4, ID_7, ID_9],
    },
    PageText {
        kind: PageKind::Leaf,
        level: 0,
        right: 0,
        cells: &[NAME_NULL, NAME_A, NAME_B],
    },
    PageText {
        kind: PageKind::Leaf,
        level: 0,
        right: 0,
        cells: &[ROW_2],
    },
    PageText {
        kind: PageKind::Leaf,
        level: 0,
        right: 0,
        cells: &[N_5],
    },
    PageText {
        kind: PageKind::Leaf,
        level: 0,
        right: 7,
        cells: &[ROW_1, ROW_3],
    },
    PageText {
        kind: PageKind::Leaf,
        level: 0,
        right: 0,
        cells: &[ROW_4],
    },
    PageText {
        kind: PageKind::Free,
        level: 0,
        right: 9,
        cells: &[],
    },
    PageText {
        kind: PageKind::Free,
        level: 0,
        right: 0,
        cells: &[],
    },
];
