//! `commands` and `transforms` in one module: lists of commands and transforms, over any reducer.

// rust: #[doc(inline)]
pub use crate::commands::{AsCommand, RingCommand, RunEnd, all_checked, commands_fit, run};
// rust: #[doc(inline)]
pub use crate::transforms::{
    add_lists, convolve, dot_product, find_root, intt, invert_each, load_forms, multiply_lists,
    ntt, ntt_counted, root_fits, scale_list, sub_lists, unload_forms,
};
