// The marks of a row: the form of its cell, whether it is an estimate, and a delta's sign (specs/Layout.antt).
ghost use Rattle.std.specs.Prelude.{◌≡◌, ◌+◌, ◌*◌, ◌/◌, ◌%◌, ◌≤◌, eqb};
ghost use Rattle.versioned_data.specs.Marks.{form_number};

// A write, a delta without a shortcut, and one with it.
#[derive(Clone, Copy, Debug, PartialEq, Eq)]
pub enum Form {
    Write,
    Delta,
    DeltaWithShortcut,
}

#[derive(Clone, Copy, Debug, PartialEq, Eq)]
pub struct Marks(pub u16);

// More of an estimate, and more of a delta that subtracts.
const ESTIMATE: u16 = 4;

const SUBTRACTS: u16 = 8;

// A write that is done.
pub const WRITE: Marks = Marks(0);

impl Marks {
    // A delta without a shortcut, that is done.
    pub fn of_delta(sign: u32) -> Marks
        requires sign { sign ≤ 1 }
        ensures marks { result.0 ≡ 1 + 8 * sign }
    {
        Marks(1 + SUBTRACTS * (sign as u16))
    }

    // No row has marks of a form that is none.
    #[inline]
    pub fn form(self) -> Option<Form>
        ensures form { form_number result ≡ self.0 % 4 }
    {
        match self.0 % 4 {
            0 => Some(Form::Write),
            1 => Some(Form::Delta),
            2 => Some(Form::DeltaWithShortcut),
            _ => None,
        }
    }

    #[inline]
    pub fn is_write(self) -> bool
        ensures write { result ≡ eqb (self.0 % 4) 0 }
    {
        self.form() == Some(Form::Write)
    }

    // A delta without a shortcut.
    #[inline]
    pub fn is_delta_alone(self) -> bool
        ensures alone { result ≡ eqb (self.0 % 4) 1 }
    {
        self.form() == Some(Form::Delta)
    }

    #[inline]
    pub fn is_estimate(self) -> bool
        ensures estimate { result ≡ eqb (self.0 / 4 % 2) 1 }
    {
        self.0 / ESTIMATE % 2 == 1
    }

    // A delta without a shortcut, that is done: a walk goes on from it.
    #[inline]
    pub fn goes_on(self) -> bool
        ensures goes_on { result ≡ eqb (self.0 % 8) 1 }
    {
        self.0 % SUBTRACTS == 1
    }

    // 1 of a delta that subtracts.
    #[inline]
    pub fn sign(self) -> u32
        ensures sign { result ≡ self.0 / 8 }
    {
        (self.0 / SUBTRACTS) as u32
    }

    pub fn estimated(self) -> Marks
        ensures marks { result.0 ≡ self.0 % 4 + 4 + 8 * (self.0 / 8) }
    {
        Marks(self.0 % 4 + ESTIMATE + 8 * (self.0 / 8))
    }

    pub fn with_shortcut(self) -> Marks
        ensures marks { result.0 ≡ 2 + 4 * (self.0 / 4) }
    {
        Marks(2 + 4 * (self.0 / 4))
    }
}
