//! A batch that Git printed.

/// What `git cat-file --batch` of Git 2.39.5 printed of a repository: its four files, its two trees and its commit.
pub const GIT_PRINTED: &[u8] = b"ce013625030ba8dba906f756967f9e9ca394464a blob 6\n\
      hello\n\n100b93820ade4c16225673b4ca62bb3ade63c313 blob 6\n\
      README\ne69de29bb2d1d6434b8b29ae775ad8c2e48c5391 blob 0\n\
      \nf328e4d9d04c31d0d70d16d21a07d1613be9d577 blob 13\n\
      fn main() {}\n\ne41b312f12e51a0d5f92d5eb71f3d72672bf264f tree 68\n\
      100644 empty\0\xe6\x9d\xe2\x9b\xb2\xd1\xd6CK\x8b)\xaewZ\xd8\xc2\xe4\x8cS\x91100755 main.rs\0\xf3\
      (\xe4\xd9\xd0L1\xd0\xd7\x0d\x16\xd2\x1a\x07\xd1a;\xe9\xd5w\n\
      0a4bf855b640e198381cffa7ebbf2cb70281bf10 tree 96\n\
      100644 README\0\xce\x016%\x03\x0b\xa8\xdb\xa9\x06\xf7V\x96\x7f\x9e\x9c\xa3\x94FJ120000 link\0\x10\
      \x0b\x93\x82\n\xdeL\x16\"Vs\xb4\xcab\xbb:\xdec\xc3\x1340000 src\0\xe4\x1b1/\x12\xe5\x1a\x0d_\x92\
      \xd5\xebq\xf3\xd7&r\xbf&O\n3dd3e176b3f64627835bdcc8ad29e5bf639a7439 commit 140\n\
      tree 0a4bf855b640e198381cffa7ebbf2cb70281bf10\n\
      author A <a@example.com> 1700000000 +0000\n\
      committer A <a@example.com> 1700000000 +0000\n\
      \nFirst\n\n";

/// The ids by which Git was asked for these objects.
pub const GIT_PRINTED_IDS: &str =
    "ce013625030ba8dba906f756967f9e9ca394464a 100b93820ade4c16225673b4ca62bb3ade63c313 \
    e69de29bb2d1d6434b8b29ae775ad8c2e48c5391 f328e4d9d04c31d0d70d16d21a07d1613be9d577 \
    e41b312f12e51a0d5f92d5eb71f3d72672bf264f 0a4bf855b640e198381cffa7ebbf2cb70281bf10 \
    3dd3e176b3f64627835bdcc8ad29e5bf639a7439";
