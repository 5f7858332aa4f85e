mod gates;
mod memory;
mod real;
