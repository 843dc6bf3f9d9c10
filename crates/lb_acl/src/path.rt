ghost use Rattle.std.specs.Prelude.{◌≡◌, ◌≤◌, length};
ghost use Rattle.std.specs.List.{position_or_len};
ghost use Rattle.std.specs.Option.{option_copied};
ghost use Rattle.lb_acl.specs.Paths.{path_of, behind_scheme, search_area, ends_path};

use crate::bytes::place_of;

/// The path of a request target: from its first `/` up to `?` or `#`. In a target such as `http://host/a`, which holds `://` and
/// doesn't begin with `/`, the path starts at the first `/` after `://`. Without such a `/`, as in the target `*`, the path is empty.
#[tactic(auto, unfolding(crate::specs::Paths::path_of))]
pub fn path_of(target: &[u8]) -> &[u8]
    ensures { result.now ≡ path_of target.now }
{
    let area = search_area(target);
    let (_, from_slash) = area.split_at(place_of(b'/', area));
    let (path, _) = from_slash.split_at(path_end(from_slash));
    path
}

/// Where the path is looked for.
fn search_area(target: &[u8]) -> &[u8]
    ensures { result.now ≡ search_area target.now }
{
    if target.starts_with(b"/") {
        return target;
    }
    behind_scheme(target).unwrap_or(target)
}

/// What follows the first `://`.
fn behind_scheme(target: &[u8]) -> Option<&[u8]>
    ensures { option_copied result ≡ behind_scheme target.now }
{
    let mut rest = target;
    while let Some((_, behind)) = rest.split_first() {
        if rest.starts_with(b"://") {
            let (_, found) = rest.split_at(3);
            return Some(found);
        }
        rest = behind;
    }
    None
}

/// The place of the first `?` or `#`, or the length.
fn path_end(bytes: &[u8]) -> usize
    ensures exact { result ≡ position_or_len ends_path bytes.now }
    ensures within { result ≤ length bytes.now }
{
    for (i, byte) in bytes.iter().enumerate() {
        if ends_path(*byte) {
            return i;
        }
    }
    bytes.len()
}

fn ends_path(byte: u8) -> bool
    ensures { result ≡ ends_path byte }
{
    byte == b'?' || byte == b'#'
}
