// Why no field is made: its size is not listed for its kind.
#[derive(Clone, Copy, PartialEq, Eq, Debug)]
pub enum FieldFault {
    UnlistedSize,
}
