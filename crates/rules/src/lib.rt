// No function. specs/ holds the definitions of document 01 and the table of cases that tests them; the type below is what its trip
// records and their code share.
#![tactic(auto)]

/// The values of one trip record, in the layout's order.
#[derive(Clone, Copy, Debug, PartialEq, Eq)]
pub struct Trip {
    pub serial: u16,
    pub cart: u16,
    pub start: u16,
    pub goal: u16,
    /// Any byte, and no `Ending`: a record is handed over with any, and those that are no ending of a trip are refused.
    pub ending: u8,
    pub last: u16,
    pub moves: u32,
    pub required: u16,
    pub look: u16,
    pub limit: u16,
}
