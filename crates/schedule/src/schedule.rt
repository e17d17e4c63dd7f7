// What a schedule says.
use crate::content::Items;
use crate::lines::Lines;
use crate::scheme::Scheme;

#[derive(Drop)]
pub struct Schedule {
    pub reclaimer: Scheme,
    pub sessions: u16,
    pub cells: u16,
    pub items: Items,
    // each item as the text writes it, beside the items, since a board takes these alone as one slice
    pub labels: Vec<String>,
    pub lines: Lines,
}
