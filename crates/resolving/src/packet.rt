// What a packet carries.

// The incoming fields, and the values of the lines that were made for the packet so far.
#[derive(Clone, Copy)]
pub struct Packet {
    pub fields: [u32; 16],
    pub lines: [u32; 208],
}
