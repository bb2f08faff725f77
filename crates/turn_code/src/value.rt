//! Values and their sorts.

ghost use Rattle.std.specs.Prelude.{◌≡◌};

/// The sort of a value.
#[derive(Clone, Copy, PartialEq, Eq, Debug)]
pub enum Sort {
    /// A number from -2^31 to 2^31 - 1.
    Integer,
    /// TRUE or FALSE.
    Boolean,
}

/// A value, with its sort.
#[derive(Clone, Copy, PartialEq, Eq, Debug)]
pub enum Value {
    /// An Integer.
    Int(i32),
    /// A Boolean.
    Bool(bool),
}

impl Value {
    ghost use Rattle.turn_code.specs.Values.{sort_of};

    /// The sort of the value.
    pub fn sort(self) -> Sort
        ensures { result ≡ sort_of self }
    {
        match self {
            Value::Int(_) => Sort::Integer,
            Value::Bool(_) => Sort::Boolean,
        }
    }
}

impl Default for Sort {
    ghost use Rattle.turn_code.specs.declared.value.Sort.TheVariants.{Integer};

    ghost is_default = { λ sort. sort ≡ Integer };

    fn default() -> Self {
        Sort::Integer
    }
}

impl Default for Value {
    ghost use Rattle.std.specs.Prelude.{pos};
    ghost use Rattle.turn_code.specs.declared.value.Value.TheVariants.{Int};

    ghost is_default = { λ value. value ≡ Int (pos 0) };

    fn default() -> Self {
        Value::Int(0)
    }
}
