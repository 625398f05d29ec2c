// Forms and value kinds: REQUIREMENT.md, sections 3 to 5. A table stores each form by its number, and each value kind by its code.
ghost use Rattle.std.specs.Prelude.{◌≡◌};
ghost use Rattle.table.specs.Kind.{form_number, kind_of, code_of, scalar_fits, rule_fits, fits_kind};

// The form of a rule, which tells what values it is for, and of an open value: an object or an array. Only a value of a rule's form may fit the rule.
#[derive(Clone, Copy, PartialEq, Eq)]
pub enum Form {
    // an object; of a rule, `obj`
    Object = 1,
    // an array; of a rule, `arr`
    Array = 2,
}

// A plain kind of value. Of a finished number, Int says that its value is whole.
#[derive(Clone, Copy, PartialEq, Eq)]
pub enum Scalar {
    Null,
    True,
    False,
    Str,
    Num,
    Int,
}

// The kind of value that an edge asks for: a plain kind, or a reference to a rule.
#[derive(Clone, Copy)]
pub enum ValueKind {
    Plain(Scalar),
    Rule(u8),
}

// A finished value: a scalar, or an object or array with the rules that have an accepting run over it, rule N at bit N.
#[derive(Clone, Copy)]
pub enum Finished {
    Scalar(Scalar),
    Rules(u32),
}

impl Form {
    // The number of a form: a table has it for each rule with lines, and a frame for its value.
    // Ruled out: a program that numbers the forms from 0, which a table has for a rule without lines; one that gives an array the number of an object.
    pub fn number(self) -> u8
        ensures { result ≡ form_number self }
    {
        self as u8
    }
}

impl Scalar {
    // A scalar fits a plain kind: `Num` takes any number.
    fn fits(self, s: Scalar) -> bool
        ensures { result ≡ scalar_fits self s }
    {
        self == s || matches!((self, s), (Scalar::Num, Scalar::Int))
    }
}

// The value kind with the given code: `code` read backwards.
impl From<u8> for ValueKind {
    ghost from_gives = { λ code kind. kind ≡ kind_of code };

    #[tactic(auto, unfolding(crate::specs::Kind::kind_of))]
    fn from(code: u8) -> ValueKind {
        match code {
            0 => ValueKind::Plain(Scalar::Null),
            1 => ValueKind::Plain(Scalar::True),
            2 => ValueKind::Plain(Scalar::False),
            3 => ValueKind::Plain(Scalar::Str),
            4 => ValueKind::Plain(Scalar::Num),
            5 => ValueKind::Plain(Scalar::Int),
            n => ValueKind::Rule(n - 6),
        }
    }
}

impl ValueKind {
    // The code of a value kind: plain kinds are 0 to 5, rule N is 6 + N.
    #[tactic(auto, unfolding(crate::specs::Kind::code_of))]
    pub fn code(self) -> u16
        ensures { result ≡ code_of self }
    {
        match self {
            ValueKind::Plain(s) => s as u16,
            ValueKind::Rule(n) => 6 + n as u16,
        }
    }

    // A finished value fits a kind.
    pub fn fits(self, v: Finished) -> bool
        ensures { result ≡ fits_kind self v }
    {
        match (self, v) {
            (ValueKind::Plain(k), Finished::Scalar(s)) => k.fits(s),
            (ValueKind::Rule(n), Finished::Rules(rules)) => rule_fits(rules, n),
            _ => false,
        }
    }
}

// Rule n is among the rules; none above 31 is.
#[tactic(auto, unfolding(crate::specs::Kind::rule_fits))]
fn rule_fits(rules: u32, n: u8) -> bool
    ensures { result ≡ rule_fits rules n }
{
    n < 32 && (rules >> n) % 2 == 1
}
