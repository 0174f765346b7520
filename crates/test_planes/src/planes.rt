//! Planes of edits beside plain lists, areas of any size, views, and room.

mod areas;
mod drawn;
mod overwritten;
mod renewed;
mod rooms;
mod views;
