//! Worked examples of the layers of bytes and numbers, one file a library. There is nothing in this crate but tests.
#![tactic(auto)]

#[cfg(test)]
mod cnd_codec_tests;
#[cfg(test)]
mod crc_small_tests;
#[cfg(test)]
mod frame_geometry_tests;
#[cfg(test)]
mod frame_overhead_tests;
#[cfg(test)]
mod gmp_rule_tests;
#[cfg(test)]
mod jc_codec_tests;
#[cfg(test)]
mod lane_kernels_tests;
#[cfg(test)]
mod maintenance_signals_tests;
#[cfg(test)]
mod msi_table_tests;
#[cfg(test)]
mod multiframe_tests;
#[cfg(test)]
mod odtu_columns_tests;
#[cfg(test)]
mod odu_path_tests;
#[cfg(test)]
mod otn_base_tests;
#[cfg(test)]
mod otu_overhead_tests;
