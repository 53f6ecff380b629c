use sa_interval::Interval;

/// A step that an access may take: to the elements with these indices, or to the field with this number.
#[derive(Clone, Copy, Debug, PartialEq, Eq)]
pub enum Reach {
    At(Interval),
    Into(u32),
}
