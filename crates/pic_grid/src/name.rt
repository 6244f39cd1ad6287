//! The name of a species.

use pic_num::Listed;

/// The name of a species, as a list of bytes.
pub type Name = Listed<u8>;
