// The class of each byte, read from a table.
ghost use Rattle.std.specs.Prelude.{◌≡◌};
ghost use Rattle.json_text.specs.Classes.{class_of};
ghost use Rattle.chars.specs.Table.{class_table, class_at};

use json_text::class::Class;
use json_text::class::Class::{
    Backslash, Break, Control, Digit, LeadC2, LeadE0, LeadE1, LeadED, LeadEE, LeadF0, LeadF1,
    LeadF4, Never, Other, Quote, Space, Structure, Tail,
};

// The class of each byte, sixteen bytes to a row. The first bytes of UTF-8 sequences have theirs by the rows of RFC 3629, section 4.
const CLASSES: [Class; 256] = [
    // 00
    Control, Control, Control, Control, Control, Control, Control, Control, Control, Break, Break,
    Control, Control, Break, Control, Control,
    // 10
    Control, Control, Control, Control, Control, Control, Control, Control, Control, Control,
    Control, Control, Control, Control, Control, Control,
    // 20
    Space, Other, Quote, Other, Other, Other, Other, Other, Other, Other, Other, Other, Structure,
    Other, Other, Other,
    // 30
    Digit, Digit, Digit, Digit, Digit, Digit, Digit, Digit, Digit, Digit, Structure, Other, Other,
    Other, Other, Other,
    // 40
    Other, Other, Other, Other, Other, Other, Other, Other, Other, Other, Other, Other, Other,
    Other, Other, Other,
    // 50
    Other, Other, Other, Other, Other, Other, Other, Other, Other, Other, Other, Structure,
    Backslash, Structure, Other, Other,
    // 60
    Other, Other, Other, Other, Other, Other, Other, Other, Other, Other, Other, Other, Other,
    Other, Other, Other,
    // 70
    Other, Other, Other, Other, Other, Other, Other, Other, Other, Other, Other, Structure, Other,
    Structure, Other, Other,
    // 80
    Tail, Tail, Tail, Tail, Tail, Tail, Tail, Tail, Tail, Tail, Tail, Tail, Tail, Tail, Tail, Tail,
    // 90
    Tail, Tail, Tail, Tail, Tail, Tail, Tail, Tail, Tail, Tail, Tail, Tail, Tail, Tail, Tail, Tail,
    // A0
    Tail, Tail, Tail, Tail, Tail, Tail, Tail, Tail, Tail, Tail, Tail, Tail, Tail, Tail, Tail, Tail,
    // B0
    Tail, Tail, Tail, Tail, Tail, Tail, Tail, Tail, Tail, Tail, Tail, Tail, Tail, Tail, Tail, Tail,
    // C0
    Never, Never, LeadC2, LeadC2, LeadC2, LeadC2, LeadC2, LeadC2, LeadC2, LeadC2, LeadC2, LeadC2,
    LeadC2, LeadC2, LeadC2, LeadC2,
    // D0
    LeadC2, LeadC2, LeadC2, LeadC2, LeadC2, LeadC2, LeadC2, LeadC2, LeadC2, LeadC2, LeadC2, LeadC2,
    LeadC2, LeadC2, LeadC2, LeadC2,
    // E0
    LeadE0, LeadE1, LeadE1, LeadE1, LeadE1, LeadE1, LeadE1, LeadE1, LeadE1, LeadE1, LeadE1, LeadE1,
    LeadE1, LeadED, LeadEE, LeadEE,
    // F0
    LeadF0, LeadF1, LeadF1, LeadF1, LeadF4, Never, Never, Never, Never, Never, Never, Never, Never,
    Never, Never, Never,
];

// The class that a lent table gives to byte b. Ruled out: a program that reads the class of another byte, and one that reads its own table in place
// of the lent one.
pub fn class_in(table: &[Class; 256], b: u8) -> Class
    ensures { result ≡ class_at table.now b }
{
    table[b as usize]
}

// The class of each byte. A constant is built anew wherever it is used, so a caller with many bytes makes this once and lends it.
#[derive(Drop)]
pub struct Classes {
    table: [Class; 256],
    ghost told: { table ≡ class_table },
}

impl Classes {
    pub fn new() -> Self {
        Classes { table: CLASSES }
    }

    // The table, which gives each byte its class. Ruled out: a table with one class for all bytes, and one that gives a byte the class of the next.
    pub fn table(&self) -> &[Class; 256]
        ensures { result.now ≡ class_table }
    {
        &self.table
    }

    pub fn of(&self, b: u8) -> Class
        ensures { result ≡ class_of b }
    {
        class_in(&self.table, b)
    }
}
