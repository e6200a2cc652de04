//! Flags by their names.

use rv_base::IsaFlags;

/// The flags of these names, with a space between two.
pub(crate) fn flags_of(names: &str) -> IsaFlags {
    let mut flags = IsaFlags::none();
    for name in names.split(' ') {
        match name {
            "m" => flags.has_m = true,
            "zba" => flags.has_zba = true,
            "zbb" => flags.has_zbb = true,
            "zca" => flags.has_zca = true,
            "zcb" => flags.has_zcb = true,
            "zcd" => flags.has_zcd = true,
            "zfhmin" => flags.has_zfhmin = true,
            _ => {}
        }
    }
    flags
}
