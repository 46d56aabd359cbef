// Ticks of the clock: times and deadlines.
#[repr(C)]
#[derive(Clone, Copy)]
pub struct Ticks(pub u64);

// Ticks from one time to another, as a table has them: costs and periods.
#[repr(C)]
#[derive(Clone, Copy)]
pub struct Duration(pub u32);
