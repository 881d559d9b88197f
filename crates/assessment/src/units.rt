// Kilowatts and cents, which are never added or compared: each has an order, sums and differences of its own.

ghost use Rattle.std.specs.Prelude.{◌≡◌, ℕ, ◌+◌, ◌-◌, ◌<◌, ◌^◌};
ghost use Rattle.assessment.specs.Assessment.{or_zero};

#[derive(Clone, Copy, Default, PartialEq, Eq, PartialOrd, Ord)]
pub struct Kilowatts(pub u64);

#[derive(Clone, Copy, PartialEq, Eq, PartialOrd, Ord)]
pub struct Cents(pub u64);

// A number of one unit, whose sums and differences are of that unit: u64's own + would add kW to cents.
pub trait Quantity: Copy {
    ghost number: { Self → ℕ };

    fn of(units: u64) -> Self
        ensures { number result ≡ units };

    fn number(self) -> u64
        ensures { result ≡ number self };

    final fn plus(self, other: Self) -> Self
        requires { number self + number other < 2 ^ 64 }
        ensures { number result ≡ number self + number other }
    {
        Self::of(self.number() + other.number())
    }

    // These less the others, at least 0: u64's own - would go below.
    final fn minus(self, other: Self) -> Self
        ensures { number result ≡ number self - number other }
    {
        Self::of(self.number().saturating_sub(other.number()))
    }
}

impl Quantity for Kilowatts {
    ghost number = { λ kw. kw.0 };

    fn of(kw: u64) -> Kilowatts {
        Kilowatts(kw)
    }

    fn number(self) -> u64 {
        let Kilowatts(kw) = self;
        kw
    }
}

impl Quantity for Cents {
    ghost number = { λ cents. cents.0 };

    fn of(cents: u64) -> Cents {
        Cents(cents)
    }

    fn number(self) -> u64 {
        let Cents(cents) = self;
        cents
    }
}

impl Kilowatts {
    // A signed number of kW, or 0 if it is negative.
    pub fn or_zero(signed: i64) -> Kilowatts
        ensures { result.0 ≡ or_zero signed }
    {
        Kilowatts(signed.max(0).unsigned_abs())
    }
}
