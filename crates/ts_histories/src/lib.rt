//! Worked histories, as tables: the bodies of layers, rollups of them, and what each layer lists. The tests make the files of the layers
//! and rollups, load them, and hold what their chains tell against the slow twin in plain files. There is no code here that is called
//! from elsewhere.
#![tactic(auto)]

#[cfg(test)]
mod agree;
#[cfg(test)]
mod history;
#[cfg(test)]
mod history_rows;
#[cfg(test)]
mod long_histories;
#[cfg(test)]
mod store;
#[cfg(test)]
mod twin;
#[cfg(test)]
mod vectors;
