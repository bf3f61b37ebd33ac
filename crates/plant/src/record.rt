// What resource it is.
#[derive(Clone, Copy, PartialEq, Eq, Debug)]
pub enum Kind {
    // Follows a curve of prices when it is not regulating.
    Generator,
    // A load that can respond.
    Demand,
}

// The output between which it runs, and the band in which it regulates, in kW.
#[derive(Clone, Copy, PartialEq, Eq, Debug)]
pub struct Limits {
    pub eco_min: u32,
    pub reg_low: u32,
    pub reg_high: u32,
    pub eco_max: u32,
}

// How far the level may move in one interval, in kW.
#[derive(Clone, Copy, PartialEq, Eq, Debug)]
pub struct Ramp {
    pub per_interval: u32,
}

// An account that owns a share, in ten-thousandths.
#[derive(Clone, Copy, PartialEq, Eq, Debug)]
pub struct Owner {
    pub account: usize,
    pub share: u32,
}

// A part of a curve: from the end of the block before, or 0, up to its own end, in kW, each kW has this price.
#[derive(Clone, Copy, PartialEq, Eq, Debug)]
pub struct Block {
    pub end: u32,
    pub price: i32,
}

// A resource as it is described to the pool.
#[derive(Drop)]
pub struct Record {
    pub kind: Kind,
    pub limits: Limits,
    pub ramp: Ramp,
    pub owners: Vec<Owner>,
    pub blocks: Vec<Block>,
}

// Who schedules an assignment.
#[derive(Clone, Copy, PartialEq, Eq, Debug)]
pub enum Schedule {
    // The pool, at this offer price in cents per MWh.
    Pool(u32),
    // The resource itself.
    Own,
}
