//! Transforms and cyclic products in place, over any reducer, their roots, and lists of forms.
//!
//! # Conditions
//!
//! Each call that has such arguments also requires:
//!
//! - the lists have the same length
//! - g suits the length

pub use modular_ring::list_inverses::invert_each;
pub use modular_transform::convolution::convolve;
pub use modular_transform::inverse::intt;
pub use modular_transform::lists::{
    add_lists, dot_product, load_forms, multiply_lists, scale_list, sub_lists, unload_forms,
};
pub use modular_transform::roots::find_root;
pub use modular_transform::transform::{ntt, ntt_counted, root_fits};
