//! Columns of ids, and the words that make up an id.

use eden_ids::{Id, IdColumn};
use std::test::Fail;

/// An id, and its five words, which begin with their highest byte.
const IDS: &[(Id, [u32; 5])] = &[
    (
        Id(*b"abcdefghijklmnopqrst"),
        [
            0x6162_6364,
            0x6566_6768,
            0x696a_6b6c,
            0x6d6e_6f70,
            0x7172_7374,
        ],
    ),
    (
        Id(*b"\x00\x00\x00\x01\x00\x00\x01\x00\x00\x01\x00\x00\x01\x00\x00\x00\xff\xff\xff\xff"),
        [1, 0x100, 0x1_0000, 0x100_0000, 0xffff_ffff],
    ),
];

/// The words at a row of a column, if the column reaches it.
fn words_at(column: &IdColumn, row: usize) -> Option<[u32; 5]> {
    Some([
        *column.words(0).get(row)?,
        *column.words(1).get(row)?,
        *column.words(2).get(row)?,
        *column.words(3).get(row)?,
        *column.words(4).get(row)?,
    ])
}

/// How many ids a column has, and how many words stand at each of their five places.
fn lengths(column: &IdColumn) -> (usize, [usize; 5]) {
    let words = [
        column.words(0).len(),
        column.words(1).len(),
        column.words(2).len(),
        column.words(3).len(),
        column.words(4).len(),
    ];
    (column.len(), words)
}

#[test]
fn columns_give_back_their_ids_and_words(rt: HostRuntime) -> Result<(), Fail> {
    let mut column = IdColumn::new(rt.alloc());
    assert!(rt; lengths(&column) == (0, [0; 5]));
    assert!(rt; column.get(0).is_none());
    for (id, _) in IDS {
        column.push(*id)?;
    }
    assert!(rt; lengths(&column) == (2, [2; 5]));
    for (row, (id, words)) in IDS.iter().enumerate() {
        assert!(rt; column.get(row) == Some(*id));
        let own = [id.word(0), id.word(1), id.word(2), id.word(3), id.word(4)];
        assert!(rt; own == *words);
        assert!(rt; words_at(&column, row) == Some(*words));
    }
    assert!(rt; column.get(2).is_none() && column.get(usize::MAX).is_none());
    Ok(())
}
