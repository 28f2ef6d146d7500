ghost use Rattle.std.specs.Prelude.{◌≡◌};
ghost use Rattle.monk_history.specs.Text.{object_version};
ghost use Rattle.monk_samples.specs.Samples.{sample_object};

use monk_object::ObjectName;

/// A sample: which object its monitor guards, and what its seats do.
#[derive(Clone, Copy, Debug, PartialEq, Eq)]
pub enum Sample {
    /// Half of the seats put items into a bounded buffer, and as many take them.
    Buffer,
    /// Half of the seats read a book, and as many write in it.
    Book,
    /// The first seat is the barber of a shop, and every other a customer.
    Shop,
}

impl Sample {
    /// Returns the object that the sample's monitor guards. Each version of a text names it.
    pub fn object(self) -> ObjectName
        ensures object { result ≡ sample_object self }
        ensures early { object_version result ≡ 1 }
    {
        match self {
            Sample::Buffer => ObjectName::Buffer,
            Sample::Book => ObjectName::Book,
            Sample::Shop => ObjectName::Shop,
        }
    }
}
