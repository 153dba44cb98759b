//! The names that the rows of tests are written with, each for octets in hexadecimal or for a text
//! that holds such octets.
//!
//! ROOT1, ROOT2 and ROOT3 are authorities that differ in their serial, INTER1
//! is an intermediate, LEAF1 and LEAF2 are leaves of `spiffe://example.org/w`
//! and of `spiffe://example.org/v`; all expire at 1000.

use std::alloc::Global;
use std::test::Fail;

/// What each name stands for. A name stands before the names that its meaning holds.
static NAMES: [(&str, &str); 48] = [
    // What a line shows of I1.
    ("P1", "spiffe://example.org/w 1000 LEAF1 example.org=ROOT1"),
    // Events: a kind, a length, and the rest.
    ("CM", "01 00000000"),
    ("CN", "03 00000000"),
    ("CL", "09 00000000"),
    ("M0", "08 00000008 0000000000000000"),
    ("M999", "08 00000008 00000000000003e7"),
    ("M1000", "08 00000008 00000000000003e8"),
    ("CF7no", "02 00000007 07 00000002 6e6f"),
    ("M4", "08 00000008 0000000000000004"),
    ("M5", "08 00000008 0000000000000005"),
    ("CF12", "02 00000005 0c 00000000"),
    ("CS12", "04 00000005 0c 00000000"),
    (
        "CS7issued",
        "04 0000001c 07 00000017 6e6f206964656e74697479206973737565642068657265",
    ),
    ("IS3bad", "06 00000008 03 00000003 626164"),
    ("IS7no", "06 00000007 07 00000002 6e6f"),
    ("IS14x", "06 00000006 0e 00000001 78"),
    // Items: SVIDs, each with its bundle and its hint,
    // then federated bundles, then revocation lists.
    (
        "CHAIN2",
        "05 00000186 00000001 ID 000000f9 LEAF1 INTER1 0000000f KEY1 00000048 ROOT1 00000000 \
         00000000 00000000",
    ),
    (
        "LARGE",
        "05 00000162 00000001 FIRST ROOTS12 00000000 00000000",
    ),
    (
        "I1F",
        "05 0000017c 00000001 FIRST 00000048 ROOT1 00000000 00000001 00000012 \
         7370696666653a2f2f6f746865722e6f7267 00000048 ROOT2 00000000",
    ),
    (
        "I1CB",
        "05 00000124 00000001 FIRST 00000048 ROOT1 00000000 00000000 00000002 00000001 0b 00000001 \
         0a",
    ),
    (
        "I1CA",
        "05 0000011f 00000001 FIRST 00000048 ROOT1 00000000 00000000 00000001 00000001 0a",
    ),
    (
        "I1C",
        "05 00000124 00000001 FIRST 00000048 ROOT1 00000000 00000000 00000002 00000001 0a 00000001 \
         0b",
    ),
    (
        "I1",
        "05 0000011a 00000001 FIRST 00000048 ROOT1 00000000 00000000 00000000",
    ),
    (
        "BADKEY",
        "05 0000010c 00000001 ID 0000008d LEAF1 00000001 00 00000048 ROOT1 00000000 00000000 \
         00000000",
    ),
    (
        "J1",
        "05 0000040e 00000003 FIRST ROOTS12 SECOND ROOTS12 THIRD ROOTS12 00000000 00000000",
    ),
    (
        "J2",
        "05 0000040e 00000003 FIRST ROOTS21 THIRD ROOTS21 SECOND ROOTS21 00000000 00000000",
    ),
    (
        "J3",
        "05 0000040e 00000003 SECOND ROOTS12 FIRST ROOTS12 THIRD ROOTS12 00000000 00000000",
    ),
    (
        "TWOFED",
        "05 00000283 00000002 FIRST 00000048 ROOT1 00000000 SECOND 00000048 ROOT2 00000000 \
         00000001 0000000b 6578616d706c652e6f7267 00000048 ROOT3 00000000",
    ),
    (
        "TWO",
        "05 00000228 00000002 FIRST 00000048 ROOT1 00000000 SECOND 00000048 ROOT2 00000000 \
         00000000 00000000",
    ),
    (
        "EMPTYFED",
        "05 0000012b 00000001 FIRST 00000048 ROOT1 00000000 00000001 00000009 6f746865722e6f7267 \
         00000000 00000000",
    ),
    (
        "HINT1",
        "05 00000122 00000001 FIRST 00000048 ROOT1 00000008 696e7465726e616c 00000000 00000000",
    ),
    (
        "HINT2",
        "05 00000122 00000001 FIRST 00000048 ROOT2 00000008 65787465726e616c 00000000 00000000",
    ),
    // An item of JWT bundles: a key set of `example.org` with one key.
    (
        "SET1",
        "05 00000041 \
         00000001000000147370696666653a2f2f6578616d706c652e6f7267000000217b226b657973 \
         223a5b7b226b6964223a226b222c226b7479223a224543227d5d7d",
    ),
    // Parts of items: an ID, a chain and a key; bundles of two with no hint.
    ("FIRST", "ID 0000008d LEAF1 0000000f KEY1"),
    ("SECOND", "ID2 0000008d LEAF2 0000000f KEY1"),
    ("THIRD", "ID2 0000008d LEAF2 0000000f KEY2"),
    ("ROOTS12", "00000090 ROOT1 ROOT2 00000000"),
    ("ROOTS21", "00000090 ROOT2 ROOT1 00000000"),
    (
        "ID2",
        "00000016 7370696666653a2f2f6578616d706c652e6f72672f76",
    ),
    (
        "ID",
        "00000016 7370696666653a2f2f6578616d706c652e6f72672f77",
    ),
    // Certificates and keys.
    (
        "INTER1",
        "306a305ea003020102020103300506032b65703000301e170d3730303130313030303030305a170d3730303130\
         313030313634305a3000300a300506032b6570030100a31d301b300b0603551d0f040403020204300c0603551d\
         13040530030101ff300506032b6570030100",
    ),
    (
        "ROOT1",
        "3046303a020101300506032b65703000301e170d3730303130313030303030305a170d37303031303130303136\
         34305a3000300a300506032b6570030100300506032b6570030100",
    ),
    (
        "ROOT2",
        "3046303a020102300506032b65703000301e170d3730303130313030303030305a170d37303031303130303136\
         34305a3000300a300506032b6570030100300506032b6570030100",
    ),
    (
        "ROOT3",
        "3046303a020103300506032b65703000301e170d3730303130313030303030305a170d37303031303130303136\
         34305a3000300a300506032b6570030100300506032b6570030100",
    ),
    (
        "LEAF1",
        "30818a307ea003020102020101300506032b65703000301e170d3730303130313030303030305a170d37303031\
         30313030313634305a3000300a300506032b6570030100a33d303b300b0603551d0f0404030207803009060355\
         1d130402300030210603551d11041a301886167370696666653a2f2f6578616d706c652e6f72672f7730050603\
         2b6570030100",
    ),
    (
        "LEAF2",
        "30818a307ea003020102020101300506032b65703000301e170d3730303130313030303030305a170d37303031\
         30313030313634305a3000300a300506032b6570030100a33d303b300b0603551d0f0404030207803009060355\
         1d130402300030210603551d11041a301886167370696666653a2f2f6578616d706c652e6f72672f7630050603\
         2b6570030100",
    ),
    ("KEY1", "300d020100300506032b6570040101"),
    ("KEY2", "300d020100300506032b6570040102"),
];

/// Returns the text with each name replaced by what it stands for.
pub fn written_out(alloc: Global, text: &str) -> Result<String, Fail> {
    let mut text = String::from_str(alloc, text)?;
    for (name, meaning) in NAMES.iter() {
        text = text.replace(alloc, *name, meaning)?;
    }
    Ok(text)
}

/// Returns the octets that the text spells, in hexadecimal and by names; spaces are ignored.
pub fn octets(alloc: Global, text: &str) -> Result<Vec<u8>, Fail> {
    let digits = written_out(alloc, text)?.replace(alloc, " ", "")?;
    Ok(hex::decode(alloc, digits.as_str())?)
}

/// Returns whether `text` is `wanted` with its names replaced by what they stand for.
pub fn is_written(alloc: Global, text: String, wanted: &str) -> Result<bool, Fail> {
    Ok(text.as_str() == written_out(alloc, wanted)?.as_str())
}
