// Commands on blocks, where a device fails or a stop comes.
mod faults;
mod stops;
