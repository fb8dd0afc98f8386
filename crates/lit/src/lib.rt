// A variable's index and a literal's code are two types. Their fields are private, so a number becomes one or the other by name, and halving
// and doubling are the only ways between them: the index 3 and the code 6 name the same variable, and neither is taken for the other.
#![tactic(auto)]

ghost use Rattle.std.specs.Prelude.{◌≡◌};
ghost use Rattle.lit.specs.Code.{variable, literal, halved, doubled, flipped_by};

// A variable by its index; 0 is the constant. Variables compare as their indexes do.
#[derive(Clone, Copy, PartialEq, Eq, PartialOrd, Ord)]
pub struct Var(u32);

// A literal by its code: its variable's index doubled, and one more if it is negated. Literals compare as their codes do.
#[derive(Clone, Copy, PartialEq, Eq, PartialOrd, Ord)]
pub struct Lit(u32);

impl Var {
    pub fn from_index(index: u32) -> Var
        ensures { result ≡ variable index }
    {
        Var(index)
    }

    pub fn index(self) -> u32
        ensures { result ≡ self.0 }
    {
        let index = self.0;
        index
    }

    // The variable's literal that is not negated; there is none if its code would not fit.
    #[tactic(auto, unfolding(crate::specs::Code::doubled))]
    pub fn lit(self) -> Option<Lit>
        ensures { result ≡ doubled self }
    {
        self.0.checked_mul(2).map(Lit)
    }
}

impl Lit {
    pub fn from_code(code: u32) -> Lit
        ensures { result ≡ literal code }
    {
        Lit(code)
    }

    pub fn code(self) -> u32
        ensures { result ≡ self.0 }
    {
        let code = self.0;
        code
    }

    // The literal's variable.
    pub fn var(self) -> Var
        ensures { result ≡ halved self }
    {
        Var(self.0 / 2)
    }

    // The literal, negated if `by` is a negated one.
    #[tactic(auto, unfolding(crate::specs::Code::flipped))]
    pub fn flipped(self, by: Lit) -> Lit
        ensures { result ≡ flipped_by self by }
    {
        let sign = (self.0 % 2 + by.0 % 2) % 2;
        Lit(self.0 / 2 * 2 + sign)
    }
}
