//! Laws of trees and commits, each as the contract of a function that does nothing.

ghost use Rattle.std.specs.Prelude.{◌≡◌, ℕ, List, Some};
ghost use Rattle.eden_ids.specs.declared.id.Id.{Id};
ghost use Rattle.eden_objects.specs.Laws.{TreesUnfold, NamesFound, DirectoriesFound, PathsRise, PathsAreLegal, RowsRise, RowsAreLegal, RowsNameBlobs, CommitsAreFileMaps, CommitsHoldTexts, CommitsListTheirRows, RowsAreFiles, EqualObjectsAreOne, EqualFilesHaveOneBlob, TreesStay, CommitRowsStay, CommitMapsStay, ImportsKeep, ImportsStaySmall, PutsKeep};

/// States what the files of a tree are, in any closed store.
///
/// `Store::closed_law` states that each store is closed.
#[tactic(auto, using(crate::proofs::Closed::rows_of_tree, crate::proofs::Lookup::look_file, crate::proofs::Lookup::look_dir, crate::proofs::Rising::rising_law, crate::proofs::Fitting::fitting_law))]
pub fn tree_law()
    // The files of a tree are those of its entries: a file, or all files of a directory
    // below its name.
    ensures unfold { TreesUnfold }
    // A path with no slash is looked up among the files of a directory,
    ensures names { NamesFound }
    // and any other in the directory that its first name refers to.
    ensures directories { DirectoriesFound }
    // The paths are in byte order.
    ensures rise { PathsRise }
    // Each path is one that `Path::parse` accepts.
    ensures legal { PathsAreLegal }
{}

/// States what the files of a commit are, in any closed store.
///
/// It also states what its file map is.
#[tactic(auto, using(crate::proofs::CommitLaws::rows_rise, crate::proofs::CommitLaws::rows_legal, crate::proofs::CommitLaws::rows_blobs, crate::proofs::CommitLaws::file_maps, crate::proofs::CommitLaws::rows_listed, crate::proofs::CommitLaws::rows_files))]
pub fn commit_map_law()
    // The paths are in byte order.
    ensures rise { RowsRise }
    // Each path is one that `Path::parse` accepts.
    ensures legal { RowsAreLegal }
    // Each file is a blob of the store.
    ensures blobs { RowsNameBlobs }
    // A commit is a file map that a directory tree can hold: no two of its paths clash.
    ensures maps { CommitsAreFileMaps }
    // The map has exactly the paths of the files,
    ensures paths { CommitsListTheirRows }
    // and at each path what is looked up there: the kind, and the payload of the blob.
    ensures files { RowsAreFiles }
    // Its paths and files can be written as bytes, if no payload is above the limit.
    ensures texts { CommitsHoldTexts }
{}

/// States that objects of one type with equal payloads are one.
#[tactic(auto, using(crate::proofs::Naming::one_object, crate::proofs::Naming::same_contents))]
pub fn same_object_law()
    // Equal payloads of one type have equal ids.
    ensures objects { EqualObjectsAreOne }
    // Two files of one kind hold the same bytes exactly if they have the same blob.
    ensures files { EqualFilesHaveOneBlob }
{}

/// States that trees and commits stay the same as a store grows.
///
/// A store with all objects of another one has the same trees and commits. It may have
/// grown from the other one, or be a copy of it.
#[tactic(auto, using(crate::proofs::Grown::trees_stay))]
pub fn grown_law()
    // A tree has the same files in both,
    ensures trees { TreesStay }
    // a commit names the same files,
    ensures rows { CommitRowsStay }
    // and has the same file map.
    ensures maps { CommitMapsStay }
    // A put leaves a store that has all objects of the old one,
    ensures puts { PutsKeep }
    // and so does an import.
    ensures imports { ImportsKeep }
    // After an import of bytes each payload is within its limit.
    ensures small { ImportsStaySmall }
{}
