// Banks of translations: a partial map from core and page to frame.
#![tactic(auto)]

pub mod bank;
pub mod inverted_table;
pub mod page_tables;
pub mod pair;
pub mod reload;
pub mod reload_row;
pub mod reload_rows;
pub mod table;
pub mod translation;
