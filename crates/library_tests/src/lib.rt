//! Tests of the public calls of the libraries: worked values from outside that no whole run shows, and calls that take
//! memory with ample memory. They stand here, and not in those libraries, so that no library is proved twice; what whole
//! runs show is data of `cases`.
#![tactic(auto)]

#[cfg(test)]
mod base;
#[cfg(test)]
mod boot_scripts;
#[cfg(test)]
mod flattened_trees;
#[cfg(test)]
mod frame_pool;
#[cfg(test)]
mod generated;
#[cfg(test)]
mod images;
#[cfg(test)]
mod nodes;
#[cfg(test)]
mod real_files;
#[cfg(test)]
mod sure_files;
#[cfg(test)]
mod trees;
