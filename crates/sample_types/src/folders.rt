//! How many folders a folder is.
ghost use Rattle.std.specs.Prelude.{◌≡◌, ◌-◌, ◌^◌, map, min, sum};
ghost use Rattle.own_types.specs.Folders.{folder_tree};
ghost use Rattle.own_types.specs.declared.folder.Folder.{Folder as FolderValue};
ghost use Rattle.sample_types.specs.Folders.{folder_count};

use own_types::Folder;

/// How many folders there are, with this one; 2^32-1 where there are more.
#[cycle(count)]
pub fn folder_count(folder: &Folder) -> u32
    ensures { result ≡ min (folder_count folder.now) (2 ^ 32 - 1) }
{
    counted(folder.children.as_slice()).saturating_add(1)
}

#[cycle(count)]
fn counted(folders: &[Folder]) -> u32
    ensures { result ≡ min (sum (map folder_count folders.now)) (2 ^ 32 - 1) }
{
    let mut count: u32 = 0;
    for folder in folders {
        count = count.saturating_add(folder_count(folder));
    }
    count
}

/// Folders of one tree are as many. It does nothing: its clause is for proofs.
pub fn trees_tell_counts()
    ensures { (one other : FolderValue) → folder_tree one ≡ folder_tree other
        → folder_count one ≡ folder_count other }
{}
