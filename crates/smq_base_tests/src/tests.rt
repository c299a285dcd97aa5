mod frame;
mod group;
mod kit;
mod pair;
mod pdu;
mod receipt;
mod route;
mod shelf;
