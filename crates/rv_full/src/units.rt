//! Registers of the units beyond the integer ones: "3.1 Vector Extension Programmer's Model" and "Zalrsc".

/// What `vsetivli` sets: the application's vector length in elements, below 32, and the fields of vtype.
#[derive(Clone, Copy, Debug, PartialEq, Eq)]
pub struct Setting {
    pub avl: u8,
    pub vtype: u8,
}

/// The bytes that a load-reserved reserves: four or eight of them from an address on.
#[derive(Clone, Copy, Debug, PartialEq, Eq)]
pub struct Reservation {
    pub address: u64,
    pub size: u8,
}
