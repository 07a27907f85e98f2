// Journals in files: what is added in pieces, and calls of a file that fail.
mod appends;
mod failing_file;
mod on_disk;
