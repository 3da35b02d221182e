//! The paths of the files of a store in a folder.
ghost use Rattle.std.specs.Prelude.{◌≡◌, OnOk, string_bytes};
ghost use Rattle.edge_traits.specs.FileNames.{path_in};

use crate::File;
use std::alloc::AllocError;

/// How much longer than the path of the folder the path of a file can be: a slash, `container.`,
/// two numbers of 32 bits and the dot between them.
pub(crate) const MAX_NAME_LEN: usize = 1 + 10 + 10 + 1 + 10;

/// Makes `path` the path of a file in a folder. Takes no memory if `path` has room for the path of
/// the folder and `MAX_NAME_LEN` bytes more.
pub(crate) fn write_path(path: &mut String, folder: &str, file: File) -> Result<(), AllocError>
    ensures { OnOk result (string_bytes path.new ≡ path_in folder.now file) }
{
    path.clear();
    if folder.is_empty() {
        return Ok(());
    }
    match file {
        File::Head => write!(path, "{folder}/head"),
        File::Seal(generation) => write!(path, "{folder}/seal.{generation}"),
        File::Book(generation) => write!(path, "{folder}/book.{generation}"),
        File::Container(generation, number) => {
            write!(path, "{folder}/container.{generation}.{number}")
        }
    }
}
